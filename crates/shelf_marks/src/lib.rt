// Shelf reasons 2, 3 and 4 as the code tests them, over marks: definitions, laws, and what the tests share.
#![tactic(auto)]

ghost use Rattle.std.specs.Prelude.{◌≡◌, List, Bool};
ghost use Rattle.mir.specs.declared.ValueId.{ValueId};
ghost use Rattle.mir.specs.Lookup.{Types};
ghost use Rattle.mir.specs.Syntax.{InstructionKind, Block};
ghost use Rattle.bytes_index.specs.Table.{ReadsIn};
ghost use Rattle.shelf.specs.Lists.{clear, every};
ghost use Rattle.shelf_marks.specs.Tests.{OfBlock, OfRoutine, AsksSlots, AsksBlocks, each_kind};

use bytes_index::Code;
use mir::BlockId;

// Whether none of the values that a slot's instruction reads is marked.
pub fn reads_clear(facts: &[u16], slot: u16, marks: &[bool]) -> bool
    ensures { (vs : List ValueId) → ReadsIn facts.now slot vs → result ≡ clear marks.now vs }
{
    let n = bytes_index::read_count(facts, slot);
    (0..n).all(|k| !table::flag(marks, bytes_index::read(facts, slot, k).0 as usize))
}

// (That the test can be called is a fact of each closure: the bound Fn says nothing of it.)

// Whether each instruction of block `k` passes a test of its slot.
pub fn each_slot<F: Fn(u16) -> bool>(code: Code, k: BlockId, test: F) -> bool
    requires { F.IsAlwaysCallable test }
    ensures { (p : Types → InstructionKind → Bool) → AsksSlots code.entry (F.post test) p
        → OfBlock code.entry k.0 (λ τ x. each_kind (p τ) x.instructions) result }
{
    let slots = bytes_index::block_slots(code.facts, k);
    (slots.first..slots.end()).all(|slot| test(slot))
}

// Whether each block passes a test.
pub fn each_block<F: Fn(BlockId) -> bool>(code: Code, test: F) -> bool
    requires { F.IsAlwaysCallable test }
    ensures { (q : Types → Block → Bool) → AsksBlocks code.entry (F.post test) q
        → OfRoutine code.entry (λ τ ks. every (q τ) ks) result }
{
    (0..code.bounds.blocks).all(|k| test(BlockId(k)))
}
