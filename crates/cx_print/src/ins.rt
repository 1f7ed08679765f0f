//! Instructions as text.

ghost use Rattle.std.specs.Prelude.{◌≡◌, ◌+◌, ◌≤◌, ◌++◌, length};
ghost use Rattle.cx_decode.specs.Table.{row_of};
ghost use Rattle.cx_print.specs.Disassembly.{bits_text, ins_text, ordering_text};
ghost use Rattle.cx_print.specs.declared.text.TheConstants.{TEXT_CAPACITY};

use crate::names::name_of;
use crate::operand_text::put_operands;
use crate::operands::operands_of;
use crate::text::Text;
use cx_decode::{Format, Ins};

/// The ordering bits of an atomic.
fn bits_text(bits: u32) -> &'static [u8]
    ensures text { result.now ≡ bits_text bits }
    ensures short { length result.now ≤ 5 }
{
    match bits {
        0 => b"",
        1 => b".rl",
        2 => b".aq",
        _ => b".aqrl",
    }
}

/// What stands behind the name of a row: the ordering bits, where its format has them.
fn ordering_text(format: Format, imm: u32) -> &'static [u8]
    ensures text { result.now ≡ ordering_text format imm }
    ensures short { length result.now ≤ 5 }
{
    match format {
        Format::Reserve | Format::Atomic => bits_text(imm),
        _ => b"",
    }
}

/// An instruction as text: the name of its row in lower case, the ordering bits of an atomic, a space and the operands.
/// The text of a row that is shown without operands is its name.
#[tactic(auto, unfolding(crate::specs::Disassembly::ins_text))]
pub fn ins_text(ins: &Ins) -> Text
    ensures { result ≡ ins_text ins.now }
{
    let mut text = Text::new();
    text.push_bytes(name_of(ins.op));
    text.push_bytes(ordering_text(ins.op.format(), ins.imm));
    put_operands(&mut text, operands_of(ins));
    text
}
