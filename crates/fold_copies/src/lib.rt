// The copies of a block, which make one value a member of a family where another is, and the values that it looks into by an
// index that is not known.
#![tactic(auto)]

ghost use Rattle.std.specs.Prelude.{◌≡◌, ◌+◌, ◌≤◌, ◌<◌, ◌||◌, drop, eqb, get_or};
ghost use Rattle.mir.specs.Option.{as_option};
ghost use Rattle.mir.specs.Most.{most_instructions};
ghost use Rattle.bytes_wire.specs.Parse.{as_parse};
ghost use Rattle.bytes_wire.specs.Value.{value_of};
ghost use Rattle.bytes_index.specs.Table.{row_at};
ghost use Rattle.fold_family.specs.Copies.{dynamic_step};
ghost use Rattle.fold_copies.specs.Found.{asked_number, as_copy, ValueCopy, AssignCopy, CopyFound, CopyNoted, DynamicNoted, ScanCopies};

use bytes_index::Code;
use bytes_wire::{Read, Refusal};
use mir::kind::Kind;
use mir::shape::Shape;
use mir::{Projection, TypeId, Value, ValueId, most};

// What makes `dest` a member where `source` is one, for a root of the shape asked for; for any root where none is.
#[derive(Clone, Copy)]
pub struct BlockCopy {
    pub source: ValueId,
    pub dest: ValueId,
    pub asked: Option<Shape>,
}

// The rows of the table from that of slot `first + k` on; the sum can pass what 16 bits hold, so no slot is given as a u16. (Cut at each
// instruction, and not once into chunks: a table may end in front of the last row, of which 0 is read then.)
fn rows(facts: &[u16], first: u16, k: u16) -> &[u16]
    ensures { result.now ≡ drop (row_at (first + k)) facts.now }
{
    let slot = first as usize + k as usize;
    table::behind(facts, bytes_index::ROWS + bytes_index::WIDTH * slot)
}

// The bytes from a row's instruction on. (By the row, and not by the slot as `Code::instruction` of bytes_index: a slot here may pass 16 bits.)
fn instruction<'a>(code: Code<'a>, row: &[u16]) -> &'a [u8]
    ensures { result.now ≡ drop (get_or row.now 0 0) code.entry.bytes.now }
{
    table::behind(code.bytes, table::place(row, 0))
}

// The value that stands behind a dest at the head of the fields.
fn source(u: &[u8], next: u16) -> Result<Read<Value>, Refusal>
    ensures { as_parse result ≡ value_of next (drop 2 u.now) }
{
    bytes_wire::read_value(table::behind(u, 2), next)
}

// The copy of the value that was read of the fields `u`.
fn copied(u: &[u8], x: Result<Read<Value>, Refusal>, asked: Option<Shape>) -> Option<BlockCopy>
    ensures { ValueCopy u.now x (asked_number asked) (as_copy result) }
{
    let source = x.ok()?.value.operand()?;
    Some(BlockCopy {
        source,
        dest: bytes_operands::dest(u),
        asked,
    })
}

// The copy that an Assign makes, whose fields are `u` and whose value is `x`: its type stands behind the value.
fn assigned(code: Code, u: &[u8], x: Result<Read<Value>, Refusal>) -> Option<BlockCopy>
    ensures { AssignCopy code.entry u.now x (as_copy result) }
{
    let Ok(r) = x else { return None };
    let t = TypeId(bytes_wire::u16_at(table::behind(u, r.size), 2));
    match fold_shapes::type_shape(code, t) {
        Shape::Other => None,
        shape => copied(u, x, Some(shape)),
    }
}

// The copy that a row's instruction makes.
fn copy_at(code: Code, row: &[u16]) -> Option<BlockCopy>
    ensures { CopyFound code.entry row.now (as_copy result) }
{
    let kind = bytes_index::kind_at(row, bytes_index::KIND)?;
    match kind {
        Kind::Assign => {
            let u = bytes_operands::own_fields(instruction(code, row));
            assigned(code, u, source(u, code.bounds.next))
        }
        Kind::InsertField | Kind::InsertTuple => {
            let u = bytes_operands::own_fields(instruction(code, row));
            copied(u, source(u, code.bounds.next), None)
        }
        _ => None,
    }
}

// The shape asked for, as the table of copies has it.
fn asked_number(asked: Option<Shape>) -> u16
    ensures { result ≡ asked_number asked }
{
    match asked {
        Some(shape) => shape as u16,
        None => fold_family::ANY,
    }
}

// Notes a copy behind `n` others: its row goes in front of the last one of the same source. How many copies there are then. (The
// rows of the values stand behind those of the copies, so the table is no slice of that length.)
fn note_copy(c: Option<BlockCopy>, n: u16, copies: &mut [u16]) -> u16
    requires { n < most_instructions }
    ensures few { result ≤ n + 1 }
    ensures noted { CopyNoted (as_copy c) n result copies.old copies.new }
{
    let Some(c) = c else { return n };
    let at = fold_family::WIDTH * n as usize;
    let head = fold_family::FIRSTS + c.source.0 as usize;
    table::put(copies, at + fold_family::DEST, c.dest.0);
    table::put(copies, at + fold_family::ASKED, asked_number(c.asked));
    table::put(copies, at + fold_family::NEXT, table::number(copies, head));
    table::put(copies, head, n + 1);
    n + 1
}

// The step is an Index that is no Integer literal. (`is_integer` is unfolded for the edit `boolean_index`, whose body tells the literals
// apart by itself: so it is what a Boolean counts as that refuses it.)
#[tactic(auto, unfolding(mir::specs::Lookup::is_integer))]
fn is_dynamic(p: Option<Projection>) -> bool
    ensures { result ≡ dynamic_step (as_option p) }
{
    matches!(p, Some(Projection::Index(x)) if !x.is_integer())
}

// A Load or a Store looks into a value, by a place.
fn has_place(row: &[u16]) -> bool
    ensures { result ≡ (eqb (get_or row.now 2 0) 5 || eqb (get_or row.now 2 0) 6) }
{
    matches!(
        bytes_index::kind_at(row, bytes_index::KIND),
        Some(Kind::Load | Kind::Store)
    )
}

// Marks the base of a row's Load or Store, its first read, where its first projection is such an Index; nothing where no marks
// are lent.
fn note_dynamic(code: Code, row: &[u16], dynamic: &mut [bool])
    ensures { DynamicNoted code.entry row.now dynamic.old dynamic.new }
{
    if dynamic.is_empty() {
        return;
    }
    if !has_place(row) {
        return;
    }
    let t = instruction(code, row);
    if is_dynamic(bytes_operands::projection(t, code.bounds, 0)) {
        let base = table::number(row, bytes_index::READS);
        table::put(dynamic, base as usize, true);
    }
}

// Scans a block once, whose `count` instructions stand in the slots from `first` on: notes its copies in `copies`, which is clear,
// chained by their source, and marks in `dynamic` each value that a Load or Store looks into by an index that is no Integer
// literal; a caller that does not ask for these lends no marks.
pub fn scan_copies(code: Code, first: u16, count: u16, copies: &mut [u16], dynamic: &mut [bool])
    ensures { ScanCopies code.entry first count copies.old copies.new dynamic.old dynamic.new }
{
    if most::INSTRUCTIONS < count as usize {
        return;
    }
    let mut n: u16 = 0;
    for k in 0..count {
        let row = rows(code.facts, first, k);
        n = note_copy(copy_at(code, row), n, copies);
        note_dynamic(code, row, dynamic);
    }
}
