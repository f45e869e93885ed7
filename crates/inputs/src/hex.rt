// Bytes in hex.
ghost use Rattle.std.specs.Prelude.{false, ◌≡◌, ◌<◌, ◌≤◌, ◌*◌, ◌++◌, length, flat_map, drop};
ghost use Rattle.std.specs.Fmt.{digit_glyph};
ghost use Rattle.inputs.specs.HexText.{byte_text};

use std::fmt;

// How many bytes are put into digits at once.
const RUN: usize = 1024;

// Prints two lower-case digits a byte, or a dash where there is no byte. A run of digits is printed at once, since a stream
// without a buffer writes each piece of text by itself.
#[derive(Clone, Copy)]
pub struct Hex<'a>(pub &'a [u8]);

impl fmt::Display for Hex<'_> {
    ghost use Rattle.std.specs.Prelude.{Some};
    ghost use Rattle.inputs.specs.HexText.{hex_text};

    ghost output = { λ hex. Some (hex_text hex.0.now) };

    fn fmt<W: fmt::Write>(&self, f: &mut fmt::Formatter<W>) -> fmt::Result {
        if self.0.is_empty() {
            return f.write_str("-");
        }
        for run in self.0.chunks(RUN) {
            f.write_str(digits(run, &mut [0; 2 * RUN]))?;
        }
        Ok(())
    }
}

// The digits of a run of bytes, laid at the front of the room. What `from_utf8_unchecked` asks is proved: digits are ASCII.
fn digits<'a>(run: &[u8], room: &'a mut [u8]) -> &'a str
    requires { 2 * length run.now ≤ length room.old }
    ensures { result.now ≡ flat_map byte_text run.now }
{
    put_digits(run, room);
    unsafe { str::from_utf8_unchecked(&room[..2 * run.len()]) }
}

// Lays two digits for each byte at the front of the room.
pub fn put_digits(bytes: &[u8], room: &mut [u8])
    requires { 2 * length bytes.now ≤ length room.old }
    ensures { room.new ≡ flat_map byte_text bytes.now ++ drop (2 * length bytes.now) room.old }
{
    for (i, x) in bytes.iter().enumerate() {
        room[2 * i] = digit(x / 16);
        room[2 * i + 1] = digit(x % 16);
    }
}

// The digit of a number below 16.
fn digit(x: u8) -> u8
    requires { x < 16 }
    ensures { result ≡ digit_glyph false x }
{
    if x < 10 { b'0' + x } else { b'a' + (x - 10) }
}
