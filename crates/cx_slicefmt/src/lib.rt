//! Process slices as bytes: what can be spelled, its text, and how it is read and written.
#![tactic(auto)]

mod fault;
mod fields;
mod items;
mod laws;
mod masks;
mod pieces;
mod reader;
mod reading;
mod stretches;
mod text;
mod writer;

pub use fault::SliceFault;
pub use items::{Either, GroupItems, MOST_BYTES};
pub use laws::{
    groups_are_spelled, groups_have_one_text, groups_read_back, no_slice_is_a_front,
    process_slices_have_one_text, scans_go_group_by_group, slices_have_one_text, slices_read_back,
    texts_grow_by_one_group,
};
pub use reader::GroupReader;
pub use writer::GroupWriter;
