// What the programs `vectors` and `replay` share: a run over the items of an input, what an item is made of, and bytes in
// hex for the lines that answer. An item begins with a byte; behind it stand numbers of four bytes, the most significant
// first, and parts, each behind its length.
#![tactic(auto)]

mod hex;

ghost use Rattle.std.specs.Prelude.{◌∷◌, [], ◌≤◌, length, IfOk, IfSome, OnOk};
ghost use Rattle.std.specs.Int.{w32, to_be_bytes};
ghost use Rattle.std.specs.Io.KnownBytes.{Consumes};
ghost use Rattle.inputs.specs.Part.{part_bytes};

pub use hex::{Hex, put_digits};
use std::io;
use std::io::{ErrorKind, Read, Write};

// Why an item is not answered.
#[derive(Debug, Drop)]
pub enum ItemError {
    // It is cut short, has a part that does not fit its room, or begins with a byte that no item begins with.
    Bad,
    // A read or a write failed.
    Failed(io::Error),
}

impl From<io::Error> for ItemError {
    ghost use Rattle.std.specs.Prelude.{◌≡◌};
    ghost use Rattle.inputs.specs.declared.ItemError.TheVariants.{Failed};

    ghost from_gives = { λ error item. item ≡ Failed error };

    fn from(error: io::Error) -> ItemError {
        ItemError::Failed(error)
    }
}

// Has each item of the input answered, from the byte that it begins with. A bad item is answered by the line `bad`, and the
// run ends there. A proved loop has to end, and nothing says that the input does. So the loop has a last turn, whose number
// no run reaches.
pub fn answer_items<R: Read, W: Write, F: FnMut(&mut R, &mut W, u8) -> Result<(), ItemError>>(
    input: &mut R,
    out: &mut W,
    mut answer: F,
) -> io::Result<()>
    requires { F.IsAlwaysCallable answer }
{
    for _ in 0..u64::MAX {
        let Some(tag) = read_tag(input)? else {
            break;
        };
        match answer(input, out, tag) {
            Ok(()) => {}
            Err(ItemError::Bad) => return out.write_all(b"bad\n"),
            Err(ItemError::Failed(error)) => return Err(error),
        }
    }
    Ok(())
}

// The byte that an item begins with, unless the input has ended.
pub fn read_tag<R: Read>(input: &mut R) -> io::Result<Option<u8>>
    ensures { IfOk result (λ tag. IfSome tag (λ x. Consumes (R.remaining input.old) (R.remaining input.new) (x ∷ []))) }
{
    match read_array::<1, R>(input) {
        Ok(bytes) => Ok(Some(bytes[0])),
        Err(ItemError::Bad) => Ok(None),
        Err(ItemError::Failed(error)) => Err(error),
    }
}

// A number: four bytes.
pub fn read_number<R: Read>(input: &mut R) -> Result<u32, ItemError>
    ensures { IfOk result (λ n. Consumes (R.remaining input.old) (R.remaining input.new) (to_be_bytes w32 n)) }
{
    Ok(u32::from_be_bytes(read_array(input)?))
}

// A part: its length, and so many bytes, read into the front of the room. Rust has no `From` of `u32`
// for `usize`, and so the length is cast.
pub fn read_part<'a, R: Read>(input: &mut R, room: &'a mut [u8]) -> Result<&'a mut [u8], ItemError>
    ensures bytes { IfOk result (λ part. Consumes (R.remaining input.old) (R.remaining input.new) (part_bytes part.now)) }
    ensures fits { IfOk result (λ part. length part.now ≤ length room.old) }
{
    let count = read_number(input)? as usize;
    let Some(part) = room.get_mut(..count) else {
        return Err(ItemError::Bad);
    };
    fill(input, part)?;
    Ok(part)
}

// The next N bytes.
fn read_array<const N: usize, R: Read>(input: &mut R) -> Result<[u8; N], ItemError>
    ensures { IfOk result (λ bytes. Consumes (R.remaining input.old) (R.remaining input.new) bytes) }
{
    let mut bytes = [0; N];
    fill(input, &mut bytes)?;
    Ok(bytes)
}

// Fills the buffer; an item that ends before it is full is bad.
fn fill<R: Read>(input: &mut R, buf: &mut [u8]) -> Result<(), ItemError>
    ensures { OnOk result (Consumes (R.remaining input.old) (R.remaining input.new) buf.new) }
{
    input.read_exact(buf).map_err(|error| match error.kind() {
        ErrorKind::UnexpectedEof => ItemError::Bad,
        _ => ItemError::Failed(error),
    })
}
