// Blocks rewritten one after another: what is decided of each instruction is put out.
// (The tables are lent one by one, as in rewrite_step. How long they are and how many blocks there are stay clauses: a `&mut` to an array
// and a run with a ghost field would be narrower parameters, of which callers would have to have one.)
#![tactic(auto)]

ghost use Rattle.std.specs.Prelude.{◌≡◌, false, ℕ, ◌+◌, ◌*◌, ◌≤◌, ◌<◌, eqb, get_or};
ghost use Rattle.rewrite_parts.specs.Rows.{row_most};
ghost use Rattle.rewrite_progress.specs.Chosen.{skips_from};
ghost use Rattle.rewrite_progress.specs.Effect.{low_enough, Low, PutLow, start_low, block_low, block_rise, routine_low};
ghost use Rattle.rewrite_step.specs.Stepping.{lent_as, SteppedLow};
ghost use Rattle.rewrite_blocks.specs.Blocks.{EndPut, BlockSlots, Ready, InstructionsPut, Lendable, OnePut, AllPut};
ghost use Rattle.mir.specs.Most.{most_blocks};
ghost use Rattle.mir.specs.TerminatorKind.{number_of_terminator_kind};
ghost use Rattle.mir.specs.declared.terminator.TerminatorKind.{TerminatorKind};

use bytes_index::Slots;
use fold::Edition;
use mir::terminator::TerminatorKind;
use mir::{BlockId, most};
use rewrite::Fault;
use rewrite_arms::Used;
use rewrite_before::Site;
use rewrite_decide::Turn;
use rewrite_parts::ROWS_FROM;
use rewrite_progress::{Progress, Run, SKIPS};

// The most instructions of a block.
const MOST_INSTRUCTIONS: u16 = most::INSTRUCTIONS as u16;

// How many bytes the count in front of a block has.
const COUNT_BYTES: usize = 2;

// The slots of block k, no more than a block can have.
fn block_slots(facts: &[u16], k: BlockId) -> Slots
    ensures { BlockSlots facts.now k.0 result }
{
    let slots = bytes_index::block_slots(facts, k);
    Slots {
        first: slots.first,
        count: slots.count.min(MOST_INSTRUCTIONS),
    }
}

// Whether a terminator of this kind is a Return.
fn is_return(kind: u8) -> bool
    ensures { result ≡ eqb kind (number_of_terminator_kind TerminatorKind.Return) }
{
    matches!(TerminatorKind::try_from(kind), Ok(TerminatorKind::Return))
}

// The terminator of a slot: only a Return is written anew, in each edition behind its own rebuilds.
fn put_end(
    out: &mut [u8],
    p: Progress,
    site: Site,
    edition: Edition,
    work: &mut [u16],
) -> Result<Progress, Fault>
    requires { Low low_enough p }
    ensures by_index { (k : ℕ) → Low k p → PutLow (k + 1) result }
    ensures end_put { EndPut edition site.entry.code site.entry.slot
        site.entry.tracked.now work.old out.old p work.new out.new result }
{
    let Site { code, slot, .. } = site;
    let part = code.slot_bytes(slot);
    if is_return(bytes_wire::byte_at(part, 0)) {
        return match edition {
            Edition::First => rewrite_before::put_return(out, p, site, work),
            Edition::Second => rewrite_keep::put_return_behind(out, p, site, work),
        };
    }
    Ok(rewrite_perform::put_part(out, p, part, 0))
}

// The instructions of a block's slots, one after another.
fn put_instructions(
    run: Run,
    at: Slots,
    tracked: &mut [bool],
    dropped: &mut [bool],
    work: &mut [u16],
    out: &mut [u8],
    w: Used<Progress>,
) -> Result<Used<Progress>, Fault>
    requires { Ready at w work.old }
    ensures by_index { (n : ℕ) → Low n w.value → SteppedLow (n + at.count) (w.used + row_most * at.count) result }
    ensures instructions_put { InstructionsPut run.entry at
        (lent_as tracked.old dropped.old work.old out.old) w
        (lent_as tracked.new dropped.new work.new out.new) result }
{
    let mut v = w;
    for j in 0..at.count {
        let slot = at.first + j;
        let turn = Turn {
            code: run.code,
            settings: run.settings,
            slot,
            fold: table::flag(run.choice, slot as usize),
        };
        v = rewrite_step::step(turn, tracked, dropped, work, out, v)?;
    }
    Ok(v)
}

// Block k, which is not skipped: nothing is tracked where it begins, and its body is written behind its count.
fn put_rewritten(
    run: Run,
    k: BlockId,
    tracked: &mut [bool],
    dropped: &mut [bool],
    work: &mut [u16],
    out: &mut [u8],
    p: Progress,
) -> Result<Progress, Fault>
    requires { Low block_low p × Lendable tracked.old work.old }
    ensures by_index { (n : ℕ) → Low n p → PutLow (n + block_rise) result }
    ensures one_put { get_or run.entry.choice.now (skips_from + k.0) false ≡ false
        → OnePut run.entry k.0
        (lent_as tracked.old dropped.old work.old out.old) p
        (lent_as tracked.new dropped.new work.new out.new) result }
{
    rewrite_parts::clear(tracked);
    let at = block_slots(run.code.facts, k);
    let body = rewrite_perform::moved(p, p.to + COUNT_BYTES, 0);
    let w = Used {
        value: body,
        used: ROWS_FROM,
    };
    let q = put_instructions(run, at, tracked, dropped, work, out, w)?;
    let site = Site {
        code: run.code,
        slot: at.end(),
        tracked,
    };
    let done = put_end(out, q.value, site, run.settings.edition, work);
    rewrite_perform::put_count(out, p, done)
}

// Block k: copied where it is skipped, else rewritten.
fn put_block(
    run: Run,
    k: BlockId,
    tracked: &mut [bool],
    dropped: &mut [bool],
    work: &mut [u16],
    out: &mut [u8],
    p: Progress,
) -> Result<Progress, Fault>
    requires { Low block_low p × Lendable tracked.old work.old }
    ensures by_index { (n : ℕ) → Low n p → PutLow (n + block_rise) result }
    ensures one_put { OnePut run.entry k.0
        (lent_as tracked.old dropped.old work.old out.old) p
        (lent_as tracked.new dropped.new work.new out.new) result }
{
    if table::flag(run.choice, SKIPS + k.0 as usize) {
        let part = bytes_lookup::block_bytes(
            run.code.bytes,
            bytes_index::blocks(run.code.facts),
            k,
        );
        return Ok(rewrite_perform::put_part(out, p, part, 0));
    }
    put_rewritten(run, k, tracked, dropped, work, out, p)
}

// All blocks. `tracked` and the first numbers of `work` are for the parts of tracked values, the types of the fresh numbers
// go behind them, and `dropped` gets the marks of the values that are left out.
pub fn put_blocks(
    run: Run,
    p: Progress,
    tracked: &mut [bool],
    dropped: &mut [bool],
    work: &mut [u16],
    out: &mut [u8],
) -> Result<Progress, Fault>
    requires { Low start_low p × ((run.code.bounds.blocks ≤ most_blocks) × Lendable tracked.old work.old) }
    ensures put_low { PutLow routine_low result }
    ensures all_put { AllPut run.entry
        (lent_as tracked.old dropped.old work.old out.old) p
        (lent_as tracked.new dropped.new work.new out.new) result }
{
    let mut q = p;
    for k in 0..run.code.bounds.blocks {
        q = put_block(run, BlockId(k), tracked, dropped, work, out, q)?;
    }
    Ok(q)
}
