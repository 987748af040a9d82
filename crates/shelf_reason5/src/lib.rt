// Whether the written output reads a dropped value: shelf reason 5.
#![tactic(auto)]

ghost use Rattle.std.specs.Prelude.{◌≡◌, List, [], ◌++◌, false, ℕ, ◌+◌, ◌≤◌, length, get_or, drop};
ghost use Rattle.bytes_wire.specs.Parse.{ok};
ghost use Rattle.mir.specs.declared.ValueId.{ValueId};
ghost use Rattle.mir.specs.Syntax.{Instruction, Terminator, Block};
ghost use Rattle.bytes_field.specs.Decode.{instruction_of, terminator_of};
ghost use Rattle.mir.specs.Reads.{reads, terminator_reads};
ghost use Rattle.bytes_block.specs.Encode.{block_bytes};
ghost use Rattle.shelf.specs.Lists.{among, clear};
ghost use Rattle.shelf.specs.Reads.{clean_terminator, with_debug};
ghost use Rattle.shelf.specs.Reason.{reads_no_dropped};
ghost use Rattle.shelf_reason5.specs.Unread.{Buffered, marked, clean_block, walked, Judges, Legible, Written};

use bytes_field::{Bounds, Scan};
use bytes_wire::Refusal;

// The most values that an instruction or a terminator reads.
const READS: usize = 32;

// None of the first `n` values of a buffer is dropped. (No slice of that length: a scan's number of reads has no bound in its type, and past
// the buffer stands 0.)
fn clean_buffer(buffer: &[u16], n: usize, dropped: &[bool]) -> bool
    ensures { (vs : List ValueId) → Buffered buffer.now n vs → result ≡ clear dropped.now vs }
{
    (0..n).all(|k| !table::flag(dropped, table::number(buffer, k) as usize))
}

// The place behind what was scanned; none where one of its reads, which stand in `buffer`, is dropped.
fn judge(scan: Result<Scan, Refusal>, buffer: &[u16], dropped: &[bool]) -> Option<usize>
    ensures { Judges scan buffer.now dropped.now result }
{
    let x = scan.ok()?;
    clean_buffer(buffer, x.reads, dropped).then_some(x.size)
}

// A written output: its bytes, what its numbers stay below, and the marks of the dropped values.
#[derive(Clone, Copy)]
struct Output<'a> {
    bytes: &'a [u8],
    bounds: Bounds,
    dropped: &'a [bool],
}

impl<'a> Output<'a> {
    // Walks the instruction that stands at `at`: the place behind it, or none where it reads a dropped value.
    fn walk_instruction(self, at: usize) -> Option<usize>
        ensures { (i : Instruction) (n : ℕ) → instruction_of self.entry.bounds [] false (drop at self.entry.bytes.now) ≡ ok i n
            → length (reads i.kind) ≤ 32 → result ≡ walked (clear self.entry.dropped.now (reads i.kind)) (at + n) }
    {
        let mut none: [bool; 0] = [false; 0];
        let mut buffer: [u16; READS] = [0; READS];
        let t = table::behind(self.bytes, at);
        let scan = bytes_block::read_instruction(t, self.bounds, 0, false, &mut none, &mut buffer);
        judge(bytes_field::further(scan, at), &buffer, self.dropped)
    }

    // Walks the terminator that stands at `at`. (Not one function with the one above: it would take the reader, and clauses for what that
    // leaves in both buffers, which are longer than the body.)
    fn walk_terminator(self, at: usize) -> Option<usize>
        ensures { (x : Terminator) (n : ℕ) → terminator_of self.entry.bounds (drop at self.entry.bytes.now) ≡ ok x n
            → length (terminator_reads x) ≤ 32 → result ≡ walked (clean_terminator (marked self.entry.dropped.now) x) (at + n) }
    {
        let mut none: [bool; 0] = [false; 0];
        let mut buffer: [u16; READS] = [0; READS];
        let t = table::behind(self.bytes, at);
        let scan = bytes_block::read_terminator(t, self.bounds, 0, false, &mut none, &mut buffer);
        judge(bytes_field::further(scan, at), &buffer, self.dropped)
    }

    // Walks the block that begins at `at`: its count, its instructions, its terminator.
    fn walk_block(self, at: usize) -> Option<usize>
        ensures { (x : Block) (rest : List ℕ) → drop at self.entry.bytes.now ≡ block_bytes x ++ rest → Legible self.entry.bounds x
            → result ≡ walked (clean_block self.entry.dropped.now x) (at + length (block_bytes x)) }
    {
        let count = bytes_wire::read_u16(table::behind(self.bytes, at)).ok()?;
        let mut here = at + count.size;
        for k in 0..count.value {
            here = self.walk_instruction(here)?;
        }
        self.walk_terminator(here)
    }
}

// The `many` blocks that stand in `out` from `at` on read no dropped value.
pub fn reads_no_dropped(out: &[u8], at: usize, b: Bounds, many: u16, dropped: &[bool]) -> bool
    ensures { (ks : List Block) (ds : List ValueId) → Written b out.now at many ks
        → ((v : ℕ) → get_or dropped.now v false ≡ among v ds) → result ≡ reads_no_dropped with_debug ds ks }
{
    let output = Output {
        bytes: out,
        bounds: b,
        dropped,
    };
    let mut here = at;
    for k in 0..many {
        let Some(end) = output.walk_block(here) else {
            return false;
        };
        here = end;
    }
    true
}
