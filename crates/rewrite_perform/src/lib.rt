// What is decided of an instruction is put out: it stays as it stands, it is left out, or an Assign stands for it.
#![tactic(auto)]

ghost use Rattle.std.specs.Prelude.{◌≡◌, ℕ, ◌+◌, ◌≤◌};
ghost use Rattle.rewrite.specs.Run.{add_counts};
ghost use Rattle.rewrite_progress.specs.Effect.{low_enough, Low, PutLow, most_lines};
ghost use Rattle.rewrite_arms.specs.Decided.{counted_as};
ghost use Rattle.rewrite_perform.specs.Performed.{moved_to, raised_by, PartPut, CountsLow, Performs, CountPut};

use bytes_index::Code;
use rewrite::{Counts, Fault};
use rewrite_arms::{Action, Counted};
use rewrite_progress::{NUMBERS, Progress};

// A progress at another place and number of instructions; its fresh numbers and counts stay.
pub fn moved(p: Progress, to: usize, lines: u32) -> Progress
    ensures { result ≡ moved_to p to lines }
{
    Progress { to, lines, ..p }
}

// The most bytes of a part that is copied: as many as an input has.
const MOST_BYTES: usize = 65536;

// Copies a part that has so many instructions, at most 1,024; of one that is longer than an input, nothing. (Not the guard of
// `rewrite_list::copy_bytes` with another constant: that bounds the place alone, by 1,024 bytes, as the parts of one Call need it; here a
// whole block may be a part, and its lines count only where it is copied.)
pub fn put_part(out: &mut [u8], p: Progress, part: &[u8], lines: u32) -> Progress
    requires { Low low_enough p × (lines ≤ most_lines) }
    ensures by_index { (k : ℕ) → Low k p → Low (k + 1) result }
    ensures part_put { PartPut p part.now lines out.old out.new result }
{
    let n = part.len();
    if MOST_BYTES < n {
        return p;
    }
    let to = bytes_emit::copy(out, p.to, part);
    moved(p, to, p.lines + lines)
}

// One more build, extract, insert or assign.
fn one_more(mut c: Counts, what: Counted) -> Counts
    requires { CountsLow c }
    ensures { result ≡ add_counts c (counted_as what) }
{
    match what {
        Counted::Build => c.builds += 1,
        Counted::Extract => c.extracts += 1,
        Counted::Insert => c.inserts += 1,
        Counted::Assign => c.assigns += 1,
    }
    c
}

// Nothing is put out, and the instruction is counted.
pub fn left_out(p: Progress, what: Counted) -> Progress
    requires { Low low_enough p }
    ensures { result ≡ raised_by p (counted_as what) }
{
    Progress {
        counts: one_more(p.counts, what),
        ..p
    }
}

// Puts out what is decided of a slot's instruction, where the block has room for it. (An action is a value and no closure: it is
// decided from tables that are not lent here.)
pub fn perform(
    action: Action,
    code: Code,
    slot: u16,
    out: &mut [u8],
    p: Progress,
    dropped: &mut [bool],
) -> Result<Progress, Fault>
    requires { Low low_enough p }
    ensures by_index { (k : ℕ) → Low k p → PutLow (k + 1) result }
    ensures performs { Performs code.entry slot action p out.old dropped.old out.new dropped.new result }
{
    match action {
        Action::Keep => {
            rewrite_progress::one_more(p.lines)?;
            Ok(put_part(out, p, code.slot_bytes(slot), 1))
        }
        Action::Track { dest: d, what } => {
            table::put(dropped, d.0 as usize, true);
            Ok(left_out(p, what))
        }
        Action::Assign {
            dest: d,
            place,
            named: t,
        } => {
            rewrite_progress::one_more(p.lines)?;
            let to = bytes_emit::put_assign(
                out,
                p.to,
                d,
                bytes_operands::value_at(code.bytes, place, code.bounds.next),
                t,
            );
            let q = left_out(p, Counted::Extract);
            Ok(moved(q, to, q.lines + 1))
        }
    }
}

// A block that begins at `p` is written from two bytes behind it on: its count of instructions goes in front. A fault is handed on.
// (It takes the Result and no Progress: of that it could not promise any more what becomes of a fault.)
pub fn put_count(out: &mut [u8], p: Progress, r: Result<Progress, Fault>) -> Result<Progress, Fault>
    requires { Low low_enough p }
    ensures by_index { (k : ℕ) → PutLow k r → PutLow k result }
    ensures count_put { CountPut p out.old r out.new result }
{
    let q = r?;
    bytes_emit::put_u16(out, p.to, (q.lines % NUMBERS) as u16);
    Ok(moved(q, q.to, 0))
}
