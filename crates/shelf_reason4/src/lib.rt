// Shelf reason 4: deep Stores on dropped bases.
#![tactic(auto)]

ghost use Rattle.std.specs.Prelude.{◌≡◌, List, false, ℕ, get_or};
ghost use Rattle.mir.specs.declared.ValueId.{ValueId as AnyId};
ghost use Rattle.shelf.specs.Lists.{among};
ghost use Rattle.shelf_marks.specs.Tests.{OfSlot, OfBlock, OfRoutine, shallow_in, each_kind, all_shallow};

use bytes_index::Code;
use mir::BlockId;
use mir::kind::Kind;

// Which of a Store's reads is its base, and which projection only a deep Store has: places among them.
const BASE: u16 = 0;

const DEEPER: u8 = 1;

// Whether the instruction in a slot is no deep Store on a dropped base: one of two or more projections.
fn is_shallow(code: Code, slot: u16, dropped: &[bool]) -> bool
    ensures { OfSlot code.entry slot (λ τ. shallow_in dropped.now) result }
{
    if bytes_index::instruction_kind(code.facts, slot) != Some(Kind::Store) {
        return true;
    }
    let base = bytes_index::read(code.facts, slot, BASE);
    if !table::flag(dropped, base.0 as usize) {
        return true;
    }
    bytes_operands::projection(code.instruction(slot), code.bounds, DEEPER).is_none()
}

// Whether no instruction of block `k` is a deep Store on a dropped base.
fn shallow_block(code: Code, k: BlockId, dropped: &[bool]) -> bool
    ensures { OfBlock code.entry k.0 (λ τ x. each_kind (shallow_in dropped.now) x.instructions) result }
{
    shelf_marks::each_slot(code, k, |slot| is_shallow(code, slot, dropped))
}

// Whether no Store of two or more projections has a dropped base (reason 4).
pub fn no_deep_store(code: Code, dropped: &[bool]) -> bool
    ensures { (ds : List AnyId) → ((v : ℕ) → get_or dropped.now v false ≡ among v ds)
        → OfRoutine code.entry (λ τ. all_shallow ds) result }
{
    shelf_marks::each_block(code, |k| shallow_block(code, k, dropped))
}
