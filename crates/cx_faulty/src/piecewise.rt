//! A source that gives little at once.

use cx_io::{Failed, MemSource, Source};

/// A source over another that gives at most so many bytes a call. It tells nothing.
#[derive(Drop)]
pub struct Piecewise {
    source: MemSource,
    most: usize,
}

impl Piecewise {
    /// What the source gives, at most so many bytes a call.
    pub fn new(source: MemSource, most: usize) -> Piecewise {
        Piecewise {
            source,
            most: most.max(1),
        }
    }
}

impl Source for Piecewise {
    ghost use Rattle.std.specs.Prelude.{None, []};

    ghost left = { λ s. None };

    ghost given = { λ s. [] };

    ghost faults = { λ s. s.source.plan.faults };

    fn read(&mut self, buf: &mut [u8]) -> Result<usize, Failed> {
        let most = buf.len().min(self.most);
        self.source.read(&mut buf[..most])
    }

    fn tells_bytes(&self) {}
}
