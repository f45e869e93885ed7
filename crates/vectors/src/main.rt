// Answers vectors of SHA-256 and HMAC-SHA-256. Standard input is a row of items, and for each one line
// is written: 32 bytes in lower-case hex.
//
//     h, length, message                 the digest of the message
//     m, length, key, length, message    the MAC of the message under the key
//
// A length is four bytes, the most significant first. An item that is cut short, that has a length out of
// bounds or that begins with another byte is answered by the line `bad`, and the run ends there.
// A read or a write that fails ends the run with an error.
#![tactic(auto)]

ghost use Rattle.std.specs.Prelude.{ℕ, List, [], ◌∷◌, ◌++◌, OnOk};
ghost use Rattle.std.specs.Io.KnownBytes.{Appends, Consumes};
ghost use Rattle.sha256.specs.Computation.{sha256};
ghost use Rattle.hmac.specs.Hmac.{hmac};
ghost use Rattle.inputs.specs.HexText.{hex_text};
ghost use Rattle.inputs.specs.Part.{part_bytes};

use hmac::hmac;
use inputs::{ItemError, answer_items, put_digits, read_part};
use sha256::sha256;
use std::io;
use std::io::{Read, Write};

// The bounds of the hash and of the MAC. The room that a part is read into is as large as its bound.
const HASH_MESSAGE: usize = 65536;

const MAC_KEY: usize = 256;

const MAC_MESSAGE: usize = 65472;

// Neither stream has a buffer that outlives a call: each line is out before the next item is read.
fn main(rt: HostRuntime) -> io::Result<()> {
    let mut input = rt.stdin();
    let mut out = rt.stdout();
    answer_items(&mut input, &mut out, |input, out, tag| match tag {
        b'h' => answer_hash(input, out),
        b'm' => answer_mac(input, out),
        _ => Err(ItemError::Bad),
    })
}

fn answer_hash<R: Read, W: Write>(input: &mut R, out: &mut W) -> Result<(), ItemError>
    ensures { OnOk result ((message : List ℕ)
        × Consumes (R.remaining input.old) (R.remaining input.new) (part_bytes message)
        × Appends (W.contents out.old) (W.contents out.new) (hex_text (sha256 message) ++ 10 ∷ [])) }
{
    let mut room = [0u8; HASH_MESSAGE];
    let message = read_part(input, &mut room)?;
    put(out, sha256(message, &[], &[]))
}

fn answer_mac<R: Read, W: Write>(input: &mut R, out: &mut W) -> Result<(), ItemError>
    ensures { OnOk result ((key : List ℕ) × (message : List ℕ)
        × Consumes (R.remaining input.old) (R.remaining input.new) (part_bytes key ++ part_bytes message)
        × Appends (W.contents out.old) (W.contents out.new) (hex_text (hmac key message) ++ 10 ∷ [])) }
{
    let mut key_room = [0u8; MAC_KEY];
    let key = read_part(input, &mut key_room)?;
    let mut room = [0u8; MAC_MESSAGE];
    let message = read_part(input, &mut room)?;
    put(out, hmac(key, message, &[]))
}

// An answer's line, written whole.
fn put<W: Write>(out: &mut W, answer: [u8; 32]) -> Result<(), ItemError>
    ensures { OnOk result (Appends (W.contents out.old) (W.contents out.new) (hex_text answer ++ 10 ∷ [])) }
{
    let mut line = [b'\n'; 65];
    put_digits(&answer, &mut line);
    out.write_all(&line)?;
    Ok(())
}
