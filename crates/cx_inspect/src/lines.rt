//! The lines of roots.

ghost use Rattle.std.specs.Prelude.{IsTrue};
ghost use Rattle.cx_codec.specs.Puts.{Puts, onto};
ghost use Rattle.cx_inspect.specs.Lines.{root_lines};

use crate::roots::Roots;
use cx_codec::{Out, OutFault};
use cx_io::Sink;
use cx_print::root_line;

impl Roots {
    /// Puts the line of each root, in order. It is refused as bytes are.
    pub fn put_lines<T: Sink>(&self, out: &mut Out, sink: &mut T) -> Result<(), OutFault>
        requires { IsTrue out.old.live }
        ensures { Puts OutFault.WriteFault (root_lines self.now)
            (onto out.old (T.held sink.old) (T.faults sink.old))
            (onto out.new (T.held sink.new) (T.faults sink.new)) result }
    {
        for index in 0..self.len() {
            let (root, steps, first) = self.at(index);
            root_line(out, root, steps, first, sink)?;
        }
        Ok(())
    }
}
