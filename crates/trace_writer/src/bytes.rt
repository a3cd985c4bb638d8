// The bytes of a command, put into output bytes.
ghost use Rattle.std.specs.Prelude.{◌≡◌, ◌≤◌, ◌∷◌, length};
ghost use Rattle.trace_file.specs.Event.{command, operand_with};
ghost use Rattle.trace_file.specs.File.{little, encoded, operand_bytes, end_command};
ghost use Rattle.trace_file.specs.Identifier.{padded, greatest};
ghost use Rattle.trace_writer.specs.Writing.{written, Small, command_for};

use trace_file::event::{Operand, Timed};

// The four digits of an identifier's number. No `write!` of them, which can fail, and no `map` over the four divisors, whose closure
// would know of none that it is not 0. That a number is small enough, or an operand, is asked here and below, and no type's
// invariant: whoever writes may hand in any number, and one too great is refused.
pub(crate) fn digits(number: u32) -> [u8; 4]
    requires { number ≤ greatest }
    ensures { result ≡ padded number }
{
    [
        b'0' + (number / 1000) as u8,
        b'0' + (number / 100 % 10) as u8,
        b'0' + (number / 10 % 10) as u8,
        b'0' + (number % 10) as u8,
    ]
}

// Writes the bytes at the front.
pub(crate) fn copy(out: &mut [u8], bytes: &[u8])
    requires { length bytes.now ≤ length out.old }
    ensures { out.new ≡ written out.old 0 bytes.now }
{
    out[..bytes.len()].copy_from_slice(bytes);
}

// Writes what every command begins with, a byte and a number.
fn write_head(out: &mut [u8], byte: u8, number: u32)
    requires { 5 ≤ length out.old }
    ensures { out.new ≡ written out.old 0 (byte ∷ little 4 number) }
{
    copy(out, &[byte]);
    copy(&mut out[1..], &number.to_le_bytes());
}

// Writes an operand at the front, and says how many bytes it has.
fn write_operand(out: &mut [u8], operand: Operand<u32>) -> usize
    requires small { Small operand }
    requires room { length (operand_bytes (operand_with padded operand)) ≤ length out.old }
    ensures bytes { out.new ≡ written out.old 0 (operand_bytes (operand_with padded operand)) }
    ensures size { result ≡ length (operand_bytes (operand_with padded operand)) }
{
    match operand {
        Operand::Nothing => 0,
        Operand::Identifier(number) => {
            copy(out, &digits(number));
            4
        }
        Operand::Thread(thread) => {
            copy(out, &thread.to_le_bytes());
            2
        }
    }
}

// Writes an event command at the front, and says how many bytes it has.
pub(crate) fn write(out: &mut [u8], timed: Timed<u32>) -> usize
    requires small { Small (command timed.event).1 }
    requires room { length (encoded (command_for timed)) ≤ length out.old }
    ensures bytes { out.new ≡ written out.old 0 (encoded (command_for timed)) }
    ensures size { result ≡ length (encoded (command_for timed)) }
{
    let (byte, operand) = timed.event.command();
    write_head(out, byte, timed.gap);
    5 + write_operand(&mut out[5..], operand)
}

// Writes the end command at the front.
pub(crate) fn write_end(out: &mut [u8], events: u32)
    requires { 5 ≤ length out.old }
    ensures { out.new ≡ written out.old 0 (end_command events) }
{
    write_head(out, 0, events);
}
