// Instructions, terminators and blocks.
// (Bytes and a place in them stay two parameters, and that it is not past their end a clause: each step goes on from the place that
// the one before answers, so that a struct of both would be made anew, with its proof, at each.)
#![tactic(auto)]

ghost use Rattle.std.specs.Prelude.{◌≡◌, List, Bool, true, false, ℕ, ◌+◌, ◌-◌, ◌*◌, ◌≤◌, ◌<◌, length, get_or};
ghost use Rattle.bytes_wire.specs.Parse.{and_then, map_parse};
ghost use Rattle.bytes_field.specs.Decode.{defined_bits, meta_of, instruction_of, terminator_of};
ghost use Rattle.bytes_field.specs.Walk.{walk_of, passes, leaves, as_scan, scanned, as_part};
ghost use Rattle.bytes_block.specs.Decode.{head_of, skipped, as_head, as_block};
ghost use Rattle.bytes_block.specs.Rows.{row_ended, InstructionsRead, TerminatorRead, CodeRead};
ghost use Rattle.bytes_index.specs.Table.{row_at, reads_at};
ghost use Rattle.table.specs.Number.{numbers_below};

use bytes_field::{Bounds, Scan, WORD};
use bytes_wire::{Cause, Refusal};
use mir::kind::Kind;
use mir::terminator::TerminatorKind;

// How many of each a routine may have; document 01's numbers are MOSTS of bytes_sections.
#[derive(Clone, Copy)]
pub struct Mosts {
    pub types: u16,
    pub next: u16,
    pub blocks: u16,
    pub block: u16,
    pub all: u16,
    pub list: u8,
    pub projections: u8,
}

// An instruction's bit map and kind.
#[derive(Clone, Copy, PartialEq, Eq, Debug)]
pub struct Head {
    pub bits: u8,
    pub kind: Kind,
}

// Where a block ends, and how many instructions it has.
#[derive(Clone, Copy, PartialEq, Eq, Debug)]
pub struct BlockEnd {
    pub end: usize,
    pub count: u16,
}

// How many bytes an instruction's bit map and kind take.
const HEAD: usize = 2;

// The number of an expression's file takes eight bytes; that of a span's end, of an expression's index and of a comment is a u32.
const LONG: usize = 8;

// A number of `width` bytes, where `on` says that it stands.
fn then_number(s: &[u8], p: Scan, on: bool, width: usize) -> Result<Scan, Refusal>
    ensures { (seen : List Bool) (buffer : List ℕ) →
        as_scan result seen buffer ≡ and_then s.now (scanned seen buffer p) (λ w t. map_parse (λ x. w) (skipped on width t)) }
{
    if !on {
        return Ok(p);
    }
    let t = table::behind(s, p.size);
    bytes_field::further(bytes_field::read_number(t, p, width), p.size)
}

// The span, the expression id and the comment whose bits stand.
fn then_meta(s: &[u8], p: Scan, bits: u8) -> Result<Scan, Refusal>
    ensures { (seen : List Bool) (buffer : List ℕ) →
        as_scan result seen buffer ≡ and_then s.now (scanned seen buffer p) (λ w t. map_parse (λ x. w) (meta_of bits t)) }
{
    if bits % 8 == 0 {
        return Ok(p);
    }
    let span = bytes_field::bit(bits, 0);
    let expression = bytes_field::bit(bits, 1);
    let comment = bytes_field::bit(bits, 2);
    let start = then_number(s, p, span, WORD)?;
    let stop = then_number(s, start, span, WORD)?;
    let index = then_number(s, stop, expression, WORD)?;
    let file = then_number(s, index, expression, LONG)?;
    then_number(s, file, comment, WORD)
}

// No bit above 3 stands, and bit 3 only where MakeFixedArray follows.
fn defined_bits(s: &[u8], bits: u8) -> bool
    ensures { result ≡ defined_bits s.now bits }
{
    bits < 16
        && (!bytes_field::bit(bits, 3)
            || s.get(1)
                .is_none_or(|kind| *kind == Kind::MakeFixedArray as u8))
}

// The bit map and the kind. `late` is whether another kind than Phi stands before.
pub fn read_head(s: &[u8], late: bool) -> Result<Head, Refusal>
    ensures { as_head result ≡ head_of late s.now }
{
    let [bits, ..] = s else {
        return Err(Cause::Truncated.at(0));
    };
    if !defined_bits(s, *bits) {
        return Err(Cause::Undefined.at(0));
    }
    let Some(kind) = s.get(1) else {
        return Err(Cause::Truncated.at(1));
    };
    let Ok(kind) = Kind::try_from(u16::from(*kind)) else {
        return Err(Cause::Undefined.at(1));
    };
    if late && kind == Kind::Phi {
        return Err(Cause::LatePhi.at(1));
    }
    Ok(Head { bits: *bits, kind })
}

// An instruction, from its bit map on: its bytes, its reads noted, its dests marked.
// (`n` and `late` are no `Scan`, here and of a terminator: a reader of a field goes on from the scan of the field before it, but no caller here
// has one in hand. Each slot's reads begin in its own row, so that a `Scan` would be made up at each call, with a size that was not read.)
pub fn read_instruction(
    s: &[u8],
    b: Bounds,
    n: usize,
    late: bool,
    seen: &mut [bool],
    buffer: &mut [u16],
) -> Result<Scan, Refusal>
    ensures { as_scan result seen.new buffer.new ≡
        map_parse (passes (walk_of seen.old buffer.old n late)) (instruction_of b seen.old late s.now) }
{
    let head = read_head(s, late)?;
    let start = Scan {
        size: HEAD,
        reads: n,
        late,
    };
    let p = then_meta(s, start, head.bits)?;
    let row = bytes_kind::row_of_kind(head.kind);
    let many = bytes_wire::byte_at(s, p.size);
    let q = bytes_row::row_behind(s, p, row, many, b, seen, buffer)?;
    Ok(bytes_kind::kind_behind(q, head.kind))
}

// Ends a slot's row, whose reads stand before `behind`: stores from which place to which it goes, its kind, how many reads.
// (The kind is a number, as it stands in the bytes: the table has it so, and 0 for a terminator.)
fn end_row(facts: &mut [u16], slot: u16, from: usize, to: usize, kind: u8, behind: usize)
    requires { reads_at slot ≤ behind }
    ensures { facts.new ≡ row_ended facts.old (row_at slot) from to kind (behind - reads_at slot) }
{
    let n = bytes_index::row_place(slot, 0);
    table::set_place(facts, n, from);
    table::set_place(facts, n + bytes_index::END, to);
    table::put(facts, n + bytes_index::KIND, kind as u16);
    table::set_place(
        facts,
        n + bytes_index::COUNT,
        behind - (n + bytes_index::READS),
    );
}

// `count` instructions from `at` on, and their rows from slot `first` on.
fn instruction_rows(
    s: &[u8],
    at: usize,
    count: u16,
    first: u16,
    b: Bounds,
    seen: &mut [bool],
    facts: &mut [u16],
) -> Result<usize, Refusal>
    requires { (at ≤ length s.now) × (first + count < numbers_below) }
    ensures { InstructionsRead b at count first s.now seen.old seen.new
        (as_part result) facts.old facts.new }
{
    let mut here = at;
    let mut late = false;
    for i in 0..count {
        let slot = first + i;
        let t = table::behind(s, here);
        let reads = bytes_index::row_place(slot, bytes_index::READS);
        let p = read_instruction(t, b, reads, late, seen, facts).map_err(|e| e.behind(here))?;
        let end = here + p.size;
        end_row(facts, slot, here, end, bytes_kind::kind_at(t), p.reads);
        here = end;
        late = p.late;
    }
    Ok(here)
}

// A terminator, from its kind on.
pub fn read_terminator(
    s: &[u8],
    b: Bounds,
    n: usize,
    late: bool,
    seen: &mut [bool],
    buffer: &mut [u16],
) -> Result<Scan, Refusal>
    ensures { as_scan result seen.new buffer.new ≡
        map_parse (leaves (walk_of seen.old buffer.old n late)) (terminator_of b s.now) }
{
    let [kind, ..] = s else {
        return Err(Cause::Truncated.at(0));
    };
    let Ok(kind) = TerminatorKind::try_from(*kind) else {
        return Err(Cause::Undefined.at(0));
    };
    let start = Scan {
        size: 1,
        reads: n,
        late,
    };
    bytes_row::row_behind(s, start, bytes_kind::row_of_end(kind), 0, b, seen, buffer)
}

// A terminator from `at` on, and its row.
fn terminator_row(
    s: &[u8],
    at: usize,
    slot: u16,
    b: Bounds,
    facts: &mut [u16],
) -> Result<usize, Refusal>
    requires { at ≤ length s.now }
    ensures { TerminatorRead b at slot s.now (as_part result) facts.old facts.new }
{
    let mut none: [bool; 0] = [false; 0];
    let t = table::behind(s, at);
    let reads = bytes_index::row_place(slot, bytes_index::READS);
    let p = read_terminator(t, b, reads, false, &mut none, facts).map_err(|e| e.behind(at))?;
    let end = at + p.size;
    end_row(facts, slot, at, end, 0, p.reads);
    Ok(end)
}

// The block from `at` on, and its rows from slot `first` on. `total` instructions stand in the blocks before it.
pub fn read_block(
    s: &[u8],
    at: usize,
    m: Mosts,
    b: Bounds,
    total: u16,
    first: u16,
    seen: &mut [bool],
    facts: &mut [u16],
) -> Result<BlockEnd, Refusal>
    requires { (at ≤ length s.now) × (first + m.block < numbers_below) }
    ensures { CodeRead m b total at first s.now seen.old
        (as_block result seen.new) facts.old facts.new }
{
    let t = table::behind(s, at);
    let n = bytes_count::block_count(t, m.block, m.all, total).map_err(|e| e.behind(at))?;
    let code = instruction_rows(s, at + n.size, n.value, first, b, seen, facts)?;
    let end = terminator_row(s, code, first + n.value, b, facts)?;
    Ok(BlockEnd {
        end,
        count: n.value,
    })
}
