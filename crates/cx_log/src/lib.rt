//! Recordings as bytes.
#![tactic(auto)]

mod fault;
mod fields;
mod header;
mod item;
mod kind;
mod laws;
mod limits;
mod order;
mod reader;
mod reading;
mod records;
mod text;
mod transfer;
mod writer;

pub use fault::LogFault;
pub use fields::{flag, varint_between};
pub use header::Header;
pub use item::{Item, What};
pub use kind::Kind;
pub use laws::{
    headers_read_back, pages_read_back, recordings_have_one_text, recordings_read_back,
    records_are_scanned, records_have_one_text, records_read_back, scanned_records_have_one_text,
    scans_go_record_by_record,
};
pub use limits::{MARK_DISTANCE, MOST_TEXT, STEP_LIMIT};
pub use order::Behind;
pub use reader::LogReader;
pub use reading::{close, page};
pub use writer::LogWriter;
