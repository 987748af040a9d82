// Shelf reason 3: Stores' bases that are taken as parts.
#![tactic(auto)]

ghost use Rattle.std.specs.Prelude.{◌≡◌};
ghost use Rattle.mir.specs.Reads.{store_base};
ghost use Rattle.bytes_block.specs.Decode.{marks as marks_of};
ghost use Rattle.fold.specs.Tables.{CodeGround};
ghost use Rattle.mir.specs.Lookup.{Types, value_row, is_aggregate};
ghost use Rattle.shelf.specs.Reads.{aggregate_base, bases_in, bases};
ghost use Rattle.shelf_marks.specs.Tests.{OfSlot, OfBlock, OfRoutine, parts_clear, each_kind, all_apart};

use bytes_index::Code;
use mir::kind::Kind;
use mir::shape::Shape;
use mir::{BlockId, ValueId, most};

// Which of a Store's reads is its base: a place among them.
const BASE: u16 = 0;

// Whether the recorded type of value `v` is an aggregate. (A match: with `is_some_and` the proof did not close.)
fn is_aggregate(code: Code, v: ValueId) -> bool
    ensures { (τ : Types) → CodeGround code.entry τ → result ≡ is_aggregate (value_row τ v) }
{
    if code.bounds.next <= v.0 {
        return false;
    }
    match bytes_lookup::recorded_type(bytes_index::recorded(code.facts), v) {
        Some(t) => fold_shapes::type_shape(code, t) != Shape::Other,
        None => false,
    }
}

// Marks the base of the instruction in a slot where that is a Store and the base an aggregate.
fn mark_base(code: Code, slot: u16, marks: &mut [bool])
    ensures { OfSlot code.entry slot (λ τ i. marks_of marks.old (aggregate_base τ (store_base i))) marks.new }
{
    if bytes_index::instruction_kind(code.facts, slot) == Some(Kind::Store) {
        let v = bytes_index::read(code.facts, slot, BASE);
        if is_aggregate(code, v) {
            table::put(marks, v.0 as usize, true);
        }
    }
}

// Marks the bases of block `k` so: aggregates that a Store changes. (Its loop and the next are their own: a walk that took the change of the
// marks would have to say how its steps go on from one another, which is longer than the loops.)
fn mark_block(code: Code, k: BlockId, marks: &mut [bool])
    ensures { OfBlock code.entry k.0 (λ τ x. marks_of marks.old (bases_in τ x.instructions)) marks.new }
{
    let slots = bytes_index::block_slots(code.facts, k);
    for slot in slots.first..slots.end() {
        mark_base(code, slot, marks);
    }
}

// Marks the bases of all blocks so.
fn mark_bases(code: Code, marks: &mut [bool])
    ensures { OfRoutine code.entry (λ τ ks. marks_of marks.old (bases τ ks)) marks.new }
{
    for k in 0..code.bounds.blocks {
        mark_block(code, BlockId(k), marks);
    }
}

// Whether no instruction of block `k` takes a marked value as a part.
fn parts_block(code: Code, k: BlockId, marks: &[bool]) -> bool
    ensures { OfBlock code.entry k.0 (λ τ x. each_kind (parts_clear marks.now) x.instructions) result }
{
    shelf_marks::each_slot(code, k, |slot| shelf_taken::parts_clear(code, slot, marks))
}

// Whether no aggregate that is a Store's base is also taken as a part (reason 3).
pub fn kept_apart(code: Code) -> bool
    ensures { OfRoutine code.entry all_apart result }
{
    let mut marks: [bool; most::VALUES] = [false; most::VALUES];
    mark_bases(code, &mut marks);
    shelf_marks::each_block(code, |k| parts_block(code, k, &marks))
}
