//! The names of places in the code.

/// The place of an instruction. The names of the kernel come first, then those of the program.
#[derive(Clone, Copy, Debug, PartialEq, Eq)]
pub(crate) enum Name {
    /// A process was left: its registers are kept.
    Enter,
    /// An interrupt came.
    Interrupted,
    /// The block device has ended a command.
    DiskDone,
    /// Another process gets its turn.
    Switch,
    /// The process in s0 gets its turn.
    TakeTurn,
    /// A process goes on.
    Resume,
    /// A process has called.
    Called,
    /// A call has an answer.
    Answer,
    /// A call for a sector of the disk.
    ReadSector,
    /// A call for a byte of the console.
    GetByte,
    /// A call that prints a byte.
    PutByte,
    /// A call for a second page on a frame.
    Share,
    /// A page isn't there.
    PageFault,
    /// Where a table has the entry of a page.
    FindEntry,
    /// The machine is turned off.
    Stop,
    /// A round of the program.
    Round,
    /// The program asks for a sector.
    Ask,
    /// The program adds a word.
    Add,
    /// The program counts on the board.
    Count,
    /// The end of a round.
    EndRound,
    /// The program has found something wrong.
    Wrong,
}
