// The readers of the fields of an instruction. Each is given the bytes from its field on and the walk before it, checks the field,
// notes what it reads or marks what it defines, and answers how many bytes it took.
// (The marks and the buffer are two parameters, since most readers here are given one of them alone.)
#![tactic(auto)]

pub mod projection_kind;

ghost use Rattle.std.specs.Prelude.{◌≡◌, List, Bool, cond, ℕ, ◌+◌, ◌-◌, ◌<◌, length, set, take, drop, ltb};
ghost use Rattle.bytes_wire.specs.Parse.{map_parse, later};
ghost use Rattle.bytes_wire.specs.Number.{number_of, below};
ghost use Rattle.bytes_wire.specs.Value.{value_of, value_id_of};
ghost use Rattle.bytes_field.specs.Decode.{bit as bit_of, defined_of, operation_of, projection_of};
ghost use Rattle.bytes_field.specs.Walk.{walk_of, walk_before, defines, uses, uses_value, uses_projection, as_scan, bytes_of, places, Skipped, Noted};

use bytes_wire::{Cause, Refusal};
use mir::{Value, ValueId};
pub use projection_kind::ProjectionKind;

// What the numbers of an instruction stay below, and the mosts of its lists and projections. (How many values and blocks there are at most
// is no fact of the type: the bounds of the output count the fresh values too, and those of a type have none.)
#[derive(Clone, Copy)]
pub struct Bounds {
    pub types: u16,
    pub next: u16,
    pub blocks: u16,
    pub list: u8,
    pub projections: u8,
}

// How many bytes a walk took, how many reads it noted, and whether another kind than Phi was met. Of the walk before it a reader of a field
// does not read the bytes. (The buffer is lent, and may be the table of facts: `reads` is the place in it where the next one goes.)
#[derive(Clone, Copy, PartialEq, Eq, Debug)]
pub struct Scan {
    pub size: usize,
    pub reads: usize,
    pub late: bool,
}

// What a list may count: at most `most`; where `exact` has a number, that one and no other.
#[derive(Clone, Copy)]
pub struct Lists {
    pub most: u8,
    pub exact: Option<u8>,
}

// How many bytes the number of a name, a value, a type or a block takes, and a u32.
pub const ID: usize = 2;

pub const WORD: usize = 4;

// Notes that v is read, while there is room.
fn note(buffer: &mut [u16], n: usize, v: ValueId) -> usize
    ensures { (result ≡ cond (ltb n (length buffer.old)) (n + 1) n) × (buffer.new ≡ set buffer.old n v.0) }
{
    table::put(buffer, n, v.0);
    if n < buffer.len() { n + 1 } else { n }
}

// Notes the value number that a value is, where it is one.
fn note_value(buffer: &mut [u16], n: usize, x: Value) -> usize
    ensures { (seen : List Bool) (late : Bool) →
        walk_of seen buffer.new result late ≡ uses_value (walk_of seen buffer.old n late) x }
{
    match x.operand() {
        Some(v) => note(buffer, n, v),
        None => n,
    }
}

// The same answer, counted from `before` bytes earlier.
pub fn further(p: Result<Scan, Refusal>, before: usize) -> Result<Scan, Refusal>
    requires { before + bytes_of p < places }
    ensures { (seen : List Bool) (buffer : List ℕ) → as_scan result seen buffer ≡ later before (as_scan p seen buffer) }
{
    let x = p.map_err(|e| e.behind(before))?;
    Ok(Scan {
        size: before + x.size,
        ..x
    })
}

// A number of `width` bytes.
pub fn read_number(s: &[u8], before: Scan, width: usize) -> Result<Scan, Refusal>
    ensures { Skipped result before (number_of width s.now) }
{
    if s.len() < width {
        return Err(Cause::Truncated.at(0));
    }
    Ok(Scan {
        size: width,
        ..before
    })
}

// A u16 below a bound: the number of a type or a block.
pub fn read_below(s: &[u8], before: Scan, bound: u16) -> Result<Scan, Refusal>
    ensures { Skipped result before (below bound s.now) }
{
    let x = bytes_wire::read_below(s, bound)?;
    Ok(Scan {
        size: x.size,
        ..before
    })
}

// One of `many` operations.
pub fn read_operation(s: &[u8], before: Scan, many: u8) -> Result<Scan, Refusal>
    ensures { Skipped result before (operation_of many s.now) }
{
    let x = bytes_wire::read_u8(s)?;
    if many <= x.value {
        return Err(Cause::Undefined.at(0));
    }
    Ok(Scan {
        size: x.size,
        ..before
    })
}

// A value that is defined here: it is marked.
pub fn read_defined(s: &[u8], before: Scan, next: u16, seen: &mut [bool]) -> Result<Scan, Refusal>
    ensures { (buffer : List ℕ) → let w = walk_before seen.old buffer before in
        as_scan result seen.new buffer ≡ map_parse (defines w) (defined_of next seen.old s.now) }
{
    let x = bytes_wire::read_below(s, next)?;
    let v = x.value as usize;
    if table::flag(seen, v) {
        return Err(Cause::Redefined.at(0));
    }
    table::put(seen, v, true);
    Ok(Scan {
        size: x.size,
        ..before
    })
}

// A value number that is read: the base of a place.
pub fn read_base(s: &[u8], before: Scan, next: u16, buffer: &mut [u16]) -> Result<Scan, Refusal>
    ensures { Noted result before buffer.old buffer.new uses (value_id_of next s.now) }
{
    let x = bytes_wire::read_below(s, next)?;
    let m = note(buffer, before.reads, ValueId(x.value));
    Ok(Scan {
        size: x.size,
        reads: m,
        ..before
    })
}

// A value, from its kind on.
pub fn read_value(s: &[u8], before: Scan, next: u16, buffer: &mut [u16]) -> Result<Scan, Refusal>
    ensures { Noted result before buffer.old buffer.new uses_value (value_of next s.now) }
{
    let x = bytes_wire::read_value(s, next)?;
    let m = note_value(buffer, before.reads, x.value);
    Ok(Scan {
        size: x.size,
        reads: m,
        ..before
    })
}

// The bytes from `a` to `e`, as far as they stand there.
pub fn between(s: &[u8], a: usize, e: usize) -> &[u8]
    ensures { result.now ≡ take (e - a) (drop a s.now) }
{
    let t = table::behind(s, a);
    &t[..t.len().min(e.saturating_sub(a))]
}

// Whether bit k of a byte stands.
pub fn bit(x: u8, k: u8) -> bool
    requires { k < 8 }
    ensures { result ≡ bit_of k x }
{
    x >> k & 1 == 1
}

// A projection: its kind, then a value, a name or an index.
pub fn read_projection(
    s: &[u8],
    before: Scan,
    next: u16,
    buffer: &mut [u16],
) -> Result<Scan, Refusal>
    ensures { Noted result before buffer.old buffer.new uses_projection (projection_of next s.now) }
{
    let [kind, t @ ..] = s else {
        return Err(Cause::Truncated.at(0));
    };
    let Ok(kind) = ProjectionKind::try_from(*kind) else {
        return Err(Cause::Undefined.at(0));
    };
    match kind {
        ProjectionKind::Index => further(read_value(t, before, next, buffer), 1),
        ProjectionKind::Field => further(read_number(t, before, ID), 1),
        ProjectionKind::Tuple => further(read_number(t, before, WORD), 1),
    }
}
