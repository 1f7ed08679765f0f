//! What comes next in a call slice.

/// What a head begins with.
#[derive(Clone, Copy, Debug)]
pub struct HeadFound {
    /// The words: pc, and the registers x1 to x31, each where it changes.
    pub words: [Option<u32>; 32],
    /// How many runs its bytes stand in, which come next.
    pub runs: u64,
}

/// What comes next in a call slice; the bytes of a head come behind it.
#[derive(Clone, Copy, Debug)]
pub enum CallFound {
    /// What comes before the step at an index.
    Items(u64, HeadFound),
    /// The value that the step at an index is given.
    Value(u64, u32),
    /// The call at an index, its number, and what comes behind it.
    Call(u64, u32, HeadFound),
    /// The end, with the number of steps.
    End(u64),
}
