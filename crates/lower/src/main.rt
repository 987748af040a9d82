// Lowers the routine on standard input with the usual settings: keeps the first 65,536 bytes, lends 65,536 for the output, and prints the
// text of the answer (crate pass_text), which nothing cuts. (The four lines below are those of `checker` with another text: a function over
// both would take the length as a const argument and the writer as an `impl Fn`, and would have to require that it can be called with
// that room and answers no more, which is longer than they are.)
#![tactic(auto)]

use std::io;
use std::io::Write;

// How many bytes of standard input are kept.
const KEPT: usize = 65536;

fn main(rt: HostRuntime) -> io::Result<()> {
    let input = text_input::first_bytes(rt.stdin(), KEPT, rt.alloc())?;
    let mut text = [0u8; pass_text::LONGEST];
    let size = pass_text::lower_text(&input, &mut text);
    rt.stdout().write_all(&text[..size])
}
