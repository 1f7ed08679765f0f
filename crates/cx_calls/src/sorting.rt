//! Bytes in rising order.

ghost use Rattle.std.specs.Prelude.{◌≡◌};
ghost use Rattle.cx_placing.specs.Gathering.{AreApart};
ghost use Rattle.cx_slices.specs.Bytes.{sorted};

/// Sorts bytes, of which no two are at one address, with no memory of its own.
pub(crate) fn sort(bytes: &mut Vec<(u32, u8)>)
    requires { AreApart bytes.old.items }
    ensures { bytes.new.items ≡ sorted bytes.old.items }
{
    bytes.sort_unstable_by_key(|byte| byte.0);
}
