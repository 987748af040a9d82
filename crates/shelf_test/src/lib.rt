// The shelf test: the reason of a rewritten routine.
#![tactic(auto)]

ghost use Rattle.std.specs.Prelude.{◌≡◌};
ghost use Rattle.mir.specs.Routine.{Routine};
ghost use Rattle.rewrite.specs.Run.{Rewritten};
ghost use Rattle.shelf.specs.Reads.{with_debug};
ghost use Rattle.shelf.specs.Reason.{shelf_reason};
ghost use Rattle.shelf_test.specs.Number.{number_of_reason};
ghost use Rattle.shelf_test.specs.Shelved.{Input, input_reason, Shelved};

use bytes_field::Bounds;
use bytes_index::Code;

// Why a routine does not pass the shelf test: document 01's reasons 1 to 5, in their order.
#[derive(Clone, Copy, PartialEq, Eq)]
pub enum ShelfReason {
    TypesDisagree = 1,
    ReadsEarly = 2,
    BaseAsPart = 3,
    DeepStore = 4,
    ReadsDropped = 5,
}

// The number document 01 gives the reason: 0 where the test is passed.
pub fn reason_number(r: Result<(), ShelfReason>) -> u8
    ensures { result ≡ number_of_reason r }
{
    match r {
        Ok(()) => 0,
        Err(k) => k as u8,
    }
}

// The lowest of the reasons 1, 2 and 3, which are reasons of the input alone; else passed.
pub fn input_reason(code: Code) -> Result<(), ShelfReason>
    ensures { (x : Routine) → Input code.entry x → number_of_reason result ≡ input_reason x }
{
    if !shelf_reason1::types_agree(code) {
        return Err(ShelfReason::TypesDisagree);
    }
    if !shelf_reason2::in_order(code) {
        return Err(ShelfReason::ReadsEarly);
    }
    if !shelf_reason3::kept_apart(code) {
        return Err(ShelfReason::BaseAsPart);
    }
    Ok(())
}

// "Reason 0 is passed; else the lowest that holds". The blocks of the output stand at `at` of `out`, and its next value is `next`. `dropped`
// has a mark for each value left out.
pub fn reason(
    code: Code,
    out: &[u8],
    at: usize,
    next: u16,
    dropped: &[bool],
) -> Result<(), ShelfReason>
    ensures { (x : Routine) (w : Rewritten) → Shelved code.entry out.now at next dropped.now x w
        → number_of_reason result ≡ shelf_reason with_debug x w }
{
    input_reason(code)?;
    if !table::any(dropped) {
        return Ok(());
    }
    if !shelf_reason4::no_deep_store(code, dropped) {
        return Err(ShelfReason::DeepStore);
    }
    let wider = Bounds {
        next,
        ..code.bounds
    };
    if !shelf_reason5::reads_no_dropped(out, at, wider, code.bounds.blocks, dropped) {
        return Err(ShelfReason::ReadsDropped);
    }
    Ok(())
}
