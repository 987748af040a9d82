// In edition 2 (document 02, wish 5) an instruction stays behind the rebuilds of the tracked values that it reads, and a Return behind
// those of its values: each is rebuilt first, its parts before it, then the bytes are copied and the fresh numbers are put in.
#![tactic(auto)]

ghost use Rattle.std.specs.Prelude.{◌≡◌, ◌≤◌, ◌<◌, ◌+◌, ℕ, length};
ghost use Rattle.rewrite_parts.specs.Rows.{rows_in};
ghost use Rattle.rewrite_progress.specs.Effect.{low_enough, Low, PutLow};
ghost use Rattle.rewrite_patch.specs.Reach.{most_readings};
ghost use Rattle.rewrite_descent.specs.Descent.{Spacious, PutDeeper};
ghost use Rattle.rewrite_keep.specs.Keeping.{CountRead, ValueRead, ReadingsPut, BehindPut, ReturnBehindPut};

use bytes_index::Code;
use mir::{Value, most};
use rewrite::Fault;
use rewrite_before::Site;
use rewrite_progress::Progress;

// The most values that an instruction or a Return reads.
const MOST_READINGS: usize = 16;

// What reads in a slot: an instruction, or a Return.
#[derive(Clone, Copy)]
pub enum Reader {
    Instruction,
    Return,
}

// How many values are read in a slot.
fn value_count(code: Code, slot: u16, reader: Reader) -> u8
    ensures { CountRead code.entry slot reader result }
{
    match reader {
        Reader::Instruction => rewrite_patch::reading_count(code, slot),
        Reader::Return => rewrite_patch::return_count(code, slot),
    }
}

// The value that is read as number `j`.
fn value(code: Code, slot: u16, reader: Reader, j: u8) -> Value
    ensures { ValueRead code.entry slot reader j result }
{
    match reader {
        Reader::Instruction => rewrite_patch::reading(code, slot, j),
        Reader::Return => rewrite_patch::return_value(code, slot, j),
    }
}

// The rebuilds of the values that are read in a slot, in their order: `nums` gets the number of each, 0 where it is not rebuilt.
fn put_readings(
    out: &mut [u8],
    p: Progress,
    site: Site,
    reader: Reader,
    work: &mut [u16],
    nums: &mut [u16],
) -> Result<Progress, Fault>
    requires { Spacious p × (length nums.now ≡ most_readings) }
    ensures put_deeper { PutDeeper site.entry.code.bounds.next p result }
    ensures work_unchanged { rows_in work.new ≡ rows_in work.old }
    ensures readings_put { ReadingsPut site.entry reader out.old work.old p out.new work.new nums.new result }
{
    let Site {
        code,
        slot,
        tracked,
    } = site;
    let place = rewrite_descent::Site { code, tracked };
    let mut marks = [false; most::VALUES];
    let values = (code.bounds.next as usize).min(most::VALUES);
    let path = &mut marks[..values];
    let mut q = p;
    for j in 0..value_count(code, slot, reader) {
        let wants = rewrite_wanted::own_wanted(code, tracked, value(code, slot, reader, j));
        let before = q.fresh;
        q = rewrite_descent::put_deep(out, q, place, work, path, wants)?;
        let number = rewrite_descent::number_taken(code.bounds.next, before, q.fresh);
        table::put(nums, j as usize, number);
    }
    Ok(q)
}

// A slot's instruction behind the rebuilds of the values that it reads, their numbers in the places of these.
pub fn put_behind(
    out: &mut [u8],
    p: Progress,
    site: Site,
    work: &mut [u16],
) -> Result<Progress, Fault>
    requires { Low low_enough p }
    ensures by_index { (k : ℕ) → Low k p → PutLow (k + 1) result }
    ensures work_unchanged { rows_in work.new ≡ rows_in work.old }
    ensures behind_put { BehindPut site.entry.code site.entry.slot site.entry.tracked.now
        out.old work.old p out.new work.new result }
{
    let mut nums = [0u16; MOST_READINGS];
    let q = put_readings(out, p, site, Reader::Instruction, work, &mut nums)?;
    rewrite_progress::one_more(q.lines)?;
    let to = rewrite_list::copy_bytes(out, q.to, site.code.slot_bytes(site.slot));
    rewrite_patch::put_numbers(out, q.to, site.code, site.slot, &nums);
    Ok(rewrite_before::put_further(q, to, 1, q.fresh - p.fresh))
}

// A slot's Return behind the rebuilds of its values, their numbers in the places of these.
pub fn put_return_behind(
    out: &mut [u8],
    p: Progress,
    site: Site,
    work: &mut [u16],
) -> Result<Progress, Fault>
    requires { Low low_enough p }
    ensures by_index { (k : ℕ) → Low k p → PutLow (k + 1) result }
    ensures work_unchanged { rows_in work.new ≡ rows_in work.old }
    ensures return_put { ReturnBehindPut site.entry.code site.entry.slot site.entry.tracked.now
        out.old work.old p out.new work.new result }
{
    let mut nums = [0u16; MOST_READINGS];
    let q = put_readings(out, p, site, Reader::Return, work, &mut nums)?;
    let to = rewrite_list::copy_bytes(out, q.to, site.code.slot_bytes(site.slot));
    rewrite_patch::put_return_numbers(out, q.to, site.code, site.slot, &nums);
    Ok(rewrite_before::put_further(q, to, 0, q.fresh - p.fresh))
}
