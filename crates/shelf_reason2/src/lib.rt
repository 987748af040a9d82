// Shelf reason 2: the order of reads and definitions.
#![tactic(auto)]

ghost use Rattle.std.specs.Prelude.{◌≡◌, ◌<◌};
ghost use Rattle.mir.specs.Kind.{number_of_kind};
ghost use Rattle.mir.specs.Reads.{dests};
ghost use Rattle.bytes_block.specs.Decode.{marks as marks_of};
ghost use Rattle.shelf_marks.specs.Tests.{OfSlot, OfBlock, OfRoutine, BehindPhis, ordered_behind, all_ordered, dest_count, dest_first, dests_of};

use bytes_index::{Code, Slots};
use mir::kind::Kind;
use mir::{BlockId, most};

// How many dests an instruction of a kind has, whose fields are `u`.
fn dest_count(u: &[u8], kind: Kind) -> u8
    ensures { result ≡ dest_count u.now (number_of_kind kind) }
{
    match kind {
        Kind::Call => bytes_wire::byte_at(u, 0),
        Kind::Store | Kind::Debug | Kind::Nop | Kind::AssertEq => 0,
        _ => 1,
    }
}

// Where the first dest of an instruction of a kind stands: a place in its fields. (A table by kind: it is no conversion that a trait names.)
fn dest_first(kind: Kind) -> usize
    ensures { (result ≡ dest_first (number_of_kind kind)) × (result < 2) }
{
    match kind {
        Kind::UnaryOp | Kind::BinaryOp | Kind::Call => 1,
        _ => 0,
    }
}

// Marks the dests of the instruction of a kind at the head of `t`.
fn mark_dests(t: &[u8], kind: Kind, marks: &mut [bool])
    ensures { marks.new ≡ marks_of marks.old (dests_of t.now (number_of_kind kind)) }
{
    let u = bytes_operands::own_fields(t);
    let n = dest_count(u, kind);
    let first = dest_first(kind);
    for j in 0..n {
        let v = bytes_wire::u16_at(u, first + 2 * j as usize);
        table::put(marks, v as usize, true);
    }
}

// Marks the dests of the instruction in a slot.
fn mark_slot(code: Code, slot: u16, marks: &mut [bool])
    ensures { OfSlot code.entry slot (λ τ i. marks_of marks.old (dests i)) marks.new }
{
    if let Some(kind) = bytes_index::instruction_kind(code.facts, slot) {
        mark_dests(code.instruction(slot), kind, marks);
    }
}

// The slots of block `k` behind its phis.
fn behind_phis(code: Code, k: BlockId) -> Slots
    ensures { BehindPhis code.entry k.0 result }
{
    let slots = bytes_index::block_slots(code.facts, k);
    let n = fold_phis::phi_count(code.facts, slots);
    Slots {
        first: slots.first + n,
        count: slots.count - n,
    }
}

// Whether no instruction of block `k`, phis aside, reads a value that it or a later one defines: from the last to the first.
// (A loop: the marks go from slot to slot, which the closure of an `all` would have to change.)
fn block_ordered(code: Code, k: BlockId) -> bool
    ensures { OfBlock code.entry k.0 (λ τ x. ordered_behind x.instructions) result }
{
    let slots = behind_phis(code, k);
    let mut marks: [bool; most::VALUES] = [false; most::VALUES];
    for slot in (slots.first..slots.end()).rev() {
        mark_slot(code, slot, &mut marks);
        if !shelf_marks::reads_clear(code.facts, slot, &marks) {
            return false;
        }
    }
    true
}

// Whether no block reads a value that it defines there or later, phis aside (reason 2).
pub fn in_order(code: Code) -> bool
    ensures { OfRoutine code.entry (λ τ. all_ordered) result }
{
    shelf_marks::each_block(code, |k| block_ordered(code, k))
}
