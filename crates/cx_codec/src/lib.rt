//! Fields in and out: the bytes, words and varints that every format of Crosscut is made of.
//!
//! `Bytes` reads fields from a source through a buffer and tells the exact offset of a bad one; `Out` puts fields into
//! whole blocks for a sink. Neither holds the source or the sink: each call is handed the one that it uses. What
//! reading a field means is defined once, on a place of an input, and formats are built from these readers.
#![tactic(auto)]

mod buffer;
mod bytes;
mod fault;
mod laws;
mod output;
mod varint;

pub use bytes::Bytes;
pub use fault::{BytesFault, OutFault};
pub use laws::{
    byte_has_one_spelling, byte_reads_back, bytes_have_one_spelling, bytes_read_back,
    cut_reads_are_bad_at_the_end, fronts_of_longer_texts, reads_tell_of_the_input,
    texts_stand_part_by_part, varint_has_one_spelling, varint_reads_back, word_has_one_spelling,
    word_reads_back,
};
pub use output::Out;
