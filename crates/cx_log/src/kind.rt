//! The kinds of records.

ghost use Rattle.std.specs.Prelude.{◌≡◌, ◌<◌, slice_index_or};
ghost use Rattle.cx_log.specs.Kind.{kinds, rank_of, tag_of};

/// The kind of a record, with the tag that it begins with.
#[derive(Clone, Copy, Debug, PartialEq, Eq)]
pub enum Kind {
    /// The end of a recording, at the step behind its last one.
    End = 0,
    /// Bytes that a device writes to RAM.
    Dma = 1,
    /// The interrupt lines from a step on.
    Lines = 2,
    /// The value that a step asks for.
    Value = 3,
    /// A step at which a damaged recording can be cut.
    Mark = 4,
}

impl Kind {
    /// The kind of a tag; any tag above 4 stands for none and isn't asked for.
    pub fn from_tag(tag: u8) -> Kind
        requires { tag < 5 }
        ensures { result ≡ slice_index_or kinds tag Kind.End }
    {
        match tag {
            0 => Kind::End,
            1 => Kind::Dma,
            2 => Kind::Lines,
            3 => Kind::Value,
            _ => Kind::Mark,
        }
    }

    /// Its place in the order of the records of one step.
    pub fn rank(self) -> u8
        ensures { result ≡ rank_of self }
    {
        match self {
            Kind::Mark => 0,
            Kind::Dma => 1,
            Kind::Lines => 2,
            Kind::Value => 3,
            Kind::End => 4,
        }
    }

    /// The tag of a kind.
    pub fn tag(self) -> u8
        ensures { result ≡ tag_of self }
    {
        self as u8
    }
}
