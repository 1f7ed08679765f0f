//! Call slices as bytes: what can be spelled, its text, and how it is read and written.
#![tactic(auto)]

mod fault;
mod fields;
mod found;
mod gathering;
mod handing;
mod heads;
mod kept;
mod laws;
mod masks;
mod reader;
mod reading;
mod records;
mod runs;
mod spelling;
mod target;
mod writer;

pub use fault::CallFault;
pub use found::{CallFound, HeadFound};
pub use gathering::gather_bytes;
pub use kept::KeptRecords;
pub use laws::{
    call_records_have_one_text, call_records_read_back, call_slices_have_one_text,
    call_texts_grow_by_records, calls_read_back, heads_are_handed_out, heads_are_spelled,
    no_call_slice_is_a_front, placed_steps_are_spelled, records_are_read_in_parts,
    records_are_scanned, scans_go_record_by_record,
};
pub use reader::CallReader;
pub use writer::CallWriter;
