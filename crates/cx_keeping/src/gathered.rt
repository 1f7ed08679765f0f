//! Where the keeping of events ended.

/// Where the keeping of events ended.
#[derive(Clone, Copy, Debug, PartialEq, Eq)]
pub enum Gathered {
    /// A mark stands at this step, and each step below it was carried out.
    Mark(u64),
    /// The recording was read to its end, this step, and each step below it was carried out.
    End(u64),
    /// The first bad place of the input came first.
    Bad,
}
