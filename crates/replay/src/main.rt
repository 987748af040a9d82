// Replays stored answers of the Rust: each row of standard input is a call and what the Rust answered to it. Prints how many
// rows there are and how many were answered otherwise.
//
// A row: enable_tuples, enable_structs, max_aggregate_size (u8 each), the lent length (u32), the input's length (u32) and bytes;
// then ten u32 (refusal number and offset, result, five counts, shelf reason, the output's length) and the output's bytes.

#![tactic(auto)]

mod compared;

ghost use Rattle.std.specs.Prelude.{◌<◌, length};

use std::io;
use std::io::Write;

// Where a row has the lent length and the input's length, and where its input begins.
const LENT: usize = 3;

const INPUT_LENGTH: usize = 7;

const INPUT: usize = 11;

// How many bytes the ten numbers have, and where the output's length stands in them.
const TOLD: usize = 40;

const SIZE: usize = 36;

// The most bytes that are lent for an output.
const MOST_LENT: usize = 65536;

// A row: what it begins with, its input, the ten numbers that were answered, and the bytes of the output.
#[derive(Clone, Copy)]
struct Row<'a> {
    call: &'a [u8],
    input: &'a [u8],
    told: &'a [u8],
    bytes: &'a [u8],
}

// The row at the head of `s`, as far as it stands there, and what is behind it.
fn first_row<'a>(s: &'a [u8]) -> (Row<'a>, &'a [u8])
    ensures { 0 < length s.now → length result.1.now < length s.now }
{
    let told_at = INPUT + bytes_wire::u32_at(s, INPUT_LENGTH) as usize;
    let bytes_at = told_at + TOLD;
    let end = bytes_at + bytes_wire::u32_at(s, told_at + SIZE) as usize;
    let row = Row {
        call: s,
        input: bytes_field::between(s, INPUT, told_at),
        told: bytes_field::between(s, told_at, bytes_at),
        bytes: bytes_field::between(s, bytes_at, end),
    };
    (row, table::behind(s, end))
}

// Calls the pass, which is lent `out`; whether it answers as the row tells.
fn replayed(row: Row, out: &mut [u8]) -> bool {
    let mut answer: [u64; 10] = [0; 10];
    let tuples = bytes_wire::byte_at(row.call, 0) as u64;
    let structs = bytes_wire::byte_at(row.call, 1) as u64;
    let most = bytes_wire::byte_at(row.call, 2) as u64;
    pass::lower(row.input, out, tuples, structs, most, &mut answer);
    compared::same_numbers(&answer, row.told) && compared::same_bytes(out, row.bytes)
}

// Replays a row with an output of its own, of the length that was lent: whether it is answered as is told.
fn answers_alike(row: Row) -> bool {
    let mut out = [compared::FILL; MOST_LENT];
    let lent = bytes_wire::u32_at(row.call, LENT) as usize;
    lent <= MOST_LENT && replayed(row, &mut out[..lent])
}

// How many rows there are, and how many were answered otherwise.
#[derive(Clone, Copy)]
struct Tally {
    rows: u64,
    others: u64,
}

fn replay(s: &[u8]) -> Tally
    requires { length s.now < 1048576 }
{
    let mut tally = Tally { rows: 0, others: 0 };
    let mut rest = s;
    // (A row tells how long it is: no index is counted, and an iterator over rows would be this loop with a state of its own.)
    while !rest.is_empty() {
        let (row, behind) = first_row(rest);
        if !answers_alike(row) {
            tally.others += 1;
        }
        tally.rows += 1;
        rest = behind;
    }
    tally
}

// How many bytes of standard input are kept.
const KEPT: usize = 262144;

fn main(rt: HostRuntime) -> io::Result<()> {
    let input = text_input::first_bytes(rt.stdin(), KEPT, rt.alloc())?;
    let told = replay(&input);
    let mut text = [0u8; text_lines::LONGEST_REPLAYED];
    let size = text_lines::replayed_line(&mut text, told.rows, told.others);
    rt.stdout().write_all(&text[..size])
}
