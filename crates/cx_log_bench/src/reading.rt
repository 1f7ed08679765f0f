//! Reading a recording to its end.

ghost use Rattle.std.specs.Prelude.{◌≡◌, false, IfOk, IsTrue};

use cx_codec::Bytes;
use cx_io::Source;
use cx_log::{LogFault, LogReader, What};
use cx_map::PAGE_SIZE;
use std::alloc::Global;

/// How many records of each kind a recording has, and its end.
#[derive(Clone, Copy, Debug)]
pub struct Counted {
    /// Dmas.
    pub transfers: u64,
    /// Records of interrupt lines.
    pub lines: u64,
    /// Values.
    pub values: u64,
    /// Marks.
    pub marks: u64,
    /// The step of End.
    pub end: u64,
}

// Reads a recording up to its records.
fn open<S: Source>(alloc: Global, source: &mut S) -> Result<LogReader, LogFault>
    ensures live { IfOk result (λ reader. IsTrue reader.input.live) }
    ensures pages { IfOk result (λ reader. reader.left ≡ 0) }
    ensures more { IfOk result (λ reader. reader.ended ≡ false) }
{
    let mut bytes = Bytes::new(alloc)?;
    bytes.take(&mut [0; 4], source)?;
    let mut reader = LogReader::open(alloc, bytes, source)?;
    let mut page = [0; PAGE_SIZE];
    while reader.next_page(&mut page, source)?.is_some() {}
    Ok(reader)
}

/// Reads a recording to its end, and counts its records.
pub fn read_recording<S: Source>(alloc: Global, source: &mut S) -> Result<Counted, LogFault> {
    let mut reader = open(alloc, source)?;
    let mut counted = Counted {
        transfers: 0,
        lines: 0,
        values: 0,
        marks: 0,
        end: 0,
    };
    loop {
        let item = reader.next(source)?;
        match item.what {
            What::Dma(_) => counted.transfers = counted.transfers.saturating_add(1),
            What::Lines(_) => counted.lines = counted.lines.saturating_add(1),
            What::Value(_) => counted.values = counted.values.saturating_add(1),
            What::Mark => counted.marks = counted.marks.saturating_add(1),
            What::End => {
                counted.end = item.step;
                reader.close(source)?;
                return Ok(counted);
            }
        }
    }
}
