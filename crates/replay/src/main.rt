// Makes the calls of a script, and writes each call's answer with all that it was lent, so that they can be held to
// another program's. Standard input is a row of items:
//
//     o  page answer                     open
//     p  page record request answer      perform
//     r  page record request answer      repeat
//     v  page record rack                view
//     u  page ram disk                   resume
//
// A buffer is a length of four bytes, the most significant first, and then so many bytes; a rack is four bytes. For each
// item one line is written: its letter, the answer's numbers (eight hex digits each), and every buffer as it is after the
// call, in hex, `-` if it is empty:
//
//     o number page answer
//     p number stored page record request answer
//     r number stored page record request answer
//     v number stored capacity percent total page record
//     u which page ram disk part
//
// An item that is cut short, that does not fit its room or that begins with another byte is answered by the line `bad`,
// and the run ends there. A read or a write that fails ends the run with an error.
#![tactic(auto)]

mod items;
mod told;

use inputs::{ItemError, answer_items};
use items::{answer_offer, answer_open, answer_resume, answer_view};
use std::io;

// Neither stream has a buffer that outlives a call: each line is out before the next item is read. Repeat stands in a
// closure, since it takes the page by `&`, and perform by `&mut`.
fn main(rt: HostRuntime) -> io::Result<()> {
    let mut input = rt.stdin();
    let mut out = rt.stdout();
    answer_items(&mut input, &mut out, |input, out, tag| match tag {
        b'o' => answer_open(input, out),
        b'p' => answer_offer(input, out, 'p', keeper::perform),
        b'r' => answer_offer(
            input,
            out,
            'r',
            |page, record, request, answer| keeper::repeat(page, record, request, answer),
        ),
        b'v' => answer_view(input, out),
        b'u' => answer_resume(input, out),
        _ => Err(ItemError::Bad),
    })
}
