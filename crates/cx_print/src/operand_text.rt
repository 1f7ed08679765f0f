//! Operands, spelled.

ghost use Rattle.std.specs.Prelude.{◌≡◌, ◌+◌, ◌≤◌, ◌/◌, ◌^◌, ◌<◌, ◌++◌, false, length};
ghost use Rattle.std.specs.Fmt.{digits};
ghost use Rattle.cx_print.specs.Disassembly.{operands_text};
ghost use Rattle.cx_print.specs.Operands.{operand_text, place_text, register_text, signed_text};
ghost use Rattle.cx_print.specs.Room.{operand_room, operands_room};
ghost use Rattle.cx_print.specs.declared.text.TheConstants.{TEXT_CAPACITY};

use crate::hex::{control_digits, spell_hex};
use crate::operands::{Operand, Operands};
use crate::text::Text;

/// Appends a register.
fn put_register(text: &mut Text, number: u8)
    requires { length text.old + 4 ≤ TEXT_CAPACITY }
    ensures text { text.new ≡ text.old ++ register_text number }
    ensures room { length text.new ≤ length text.old + 4 }
{
    text.push_bytes(b"x");
    text.push_small(number);
}

/// Appends a pattern of 32 bits as a signed number, with `plus` in front of one that isn't negative.
fn put_signed(text: &mut Text, plus: &[u8], bits: u32)
    requires plus { length plus.now ≤ 1 }
    requires room { length text.old + 11 ≤ TEXT_CAPACITY }
    ensures text { text.new ≡ text.old ++ signed_text plus.now bits }
    ensures room { length text.new ≤ length text.old + 11 }
{
    if bits < 0x8000_0000 {
        text.push_bytes(plus);
        text.push_number(bits);
    } else {
        text.push_bytes(b"-");
        text.push_number(bits.wrapping_neg());
    }
}

/// Appends the memory that a register points to.
fn put_place(text: &mut Text, base: u8)
    requires { length text.old + 6 ≤ TEXT_CAPACITY }
    ensures text { text.new ≡ text.old ++ place_text base }
    ensures room { length text.new ≤ length text.old + 6 }
{
    text.push_bytes(b"(");
    put_register(text, base);
    text.push_bytes(b")");
}

/// Appends a number of 20 bits in hexadecimal, without leading zeros.
fn put_upper(text: &mut Text, number: u32)
    requires small { number < 2 ^ 20 }
    requires room { length text.old + 5 ≤ TEXT_CAPACITY }
    ensures text { text.new ≡ text.old ++ digits 16 false number }
    ensures room { length text.new ≤ length text.old + 5 }
{
    let mut digits = [0; 5];
    let first = spell_hex(number, &mut digits);
    text.push_bytes(&digits[first..]);
}

/// Appends an operand.
pub(crate) fn put_operand(text: &mut Text, operand: Operand)
    requires { length text.old + operand_room operand ≤ TEXT_CAPACITY }
    ensures text { text.new ≡ text.old ++ operand_text operand }
    ensures room { length text.new ≤ length text.old + operand_room operand }
{
    match operand {
        Operand::X(number) => put_register(text, number),
        Operand::Small(number) => text.push_small(number),
        Operand::Signed(bits) => put_signed(text, b"", bits),
        Operand::Target(bits) => {
            text.push_bytes(b"pc");
            put_signed(text, b"+", bits);
        }
        Operand::UpperBits(bits) => {
            text.push_bytes(b"0x");
            put_upper(text, bits >> 12);
        }
        Operand::ControlRegister(number) => text.push_bytes(&control_digits(number)),
        Operand::Place(base) => put_place(text, base),
        Operand::Offset(bits, base) => {
            put_signed(text, b"", bits);
            put_place(text, base);
        }
    }
}

/// Appends the operands, each behind what separates it.
pub(crate) fn put_operands(text: &mut Text, operands: Operands)
    requires { length text.old + operands_room operands ≤ TEXT_CAPACITY }
    ensures text { text.new ≡ text.old ++ operands_text operands }
    ensures room { length text.new ≤ length text.old + operands_room operands }
{
    match operands {
        Operands::Nothing => (),
        Operands::Two(first, second) => {
            text.push_bytes(b" ");
            put_operand(text, first);
            text.push_bytes(b", ");
            put_operand(text, second);
        }
        Operands::Three(first, second, third) => {
            text.push_bytes(b" ");
            put_operand(text, first);
            text.push_bytes(b", ");
            put_operand(text, second);
            text.push_bytes(b", ");
            put_operand(text, third);
        }
    }
}
