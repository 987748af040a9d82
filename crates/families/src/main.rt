// Prints a line for each build of the routine on standard input: keeps the first 65,536 bytes, and prints the text that crate
// pass_families makes of them. With the word `members` each line ends with the members of the build's family.
#![tactic(auto)]

ghost use Rattle.std.specs.Prelude.{◌≡◌, IfOk, length};

use std::alloc::Global;
use std::env::Env;
use std::io::Write;
use std::{env, io};

// How many bytes of standard input are kept.
const KEPT: usize = 65536;

// Whether the members are asked for; no other word is taken.
fn asks_members<R: Env + Alloc>(rt: &R) -> io::Result<bool> {
    let mut words = env::args(rt)?;
    words.next();
    match words.next() {
        None => Ok(false),
        Some(word) if word.as_str() == "members" => Ok(true),
        Some(_) => Err(io::Error::from(io::ErrorKind::InvalidInput)),
    }
}

// Room for a text of so many bytes, on the heap.
fn lent(n: usize, alloc: Global) -> io::Result<Vec<u8>>
    ensures { IfOk result (λ v. length v.items ≡ n) }
{
    Ok(vec![in alloc; 0u8; n]?)
}

fn main(rt: HostRuntime) -> io::Result<()> {
    let named = asks_members(&rt)?;
    let input = text_input::first_bytes(rt.stdin(), KEPT, rt.alloc())?;
    let mut text = lent(pass_families::LONGEST, rt.alloc())?;
    let size = pass_families::families_text(&input, named, &mut text);
    rt.stdout().write_all(&text[..size])
}
