// Says whether the bytes on standard input are a routine: prints what crate bytes_text makes of the first 65,536. (`lower` has the
// four lines below with another text, and says why.)
#![tactic(auto)]

use std::io;
use std::io::Write;

// How many bytes of standard input are kept.
const KEPT: usize = 65536;

fn main(rt: HostRuntime) -> io::Result<()> {
    let input = text_input::first_bytes(rt.stdin(), KEPT, rt.alloc())?;
    let mut text = [0u8; bytes_text::LONGEST];
    let size = bytes_text::check_text(&input, &mut text);
    rt.stdout().write_all(&text[..size])
}
