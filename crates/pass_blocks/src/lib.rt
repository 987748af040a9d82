// The blocks of the output. A run over them tells how long they are and which fresh numbers they take; behind the head they are
// copied from where it wrote them, or run over again.
// (The tables are lent one by one, as in rewrite_step. How long they are and how many blocks there are stay clauses: longer ones may be
// lent, and a run that has few blocks in its type would be a narrower parameter.)
#![tactic(auto)]

ghost use Rattle.std.specs.Prelude.{◌≡◌, ◌+◌, ◌≤◌, length};
ghost use Rattle.std.proofs.lemmas.List.Edits.{sets};
ghost use Rattle.rewrite.specs.Run.{rewritten_blocks};
ghost use Rattle.rewrite_parts.specs.Rows.{fresh_in};
ghost use Rattle.rewrite_progress.specs.Effect.{PutLow, routine_low};
ghost use Rattle.pass_input.specs.Accepted.{ChosenRun};
ghost use Rattle.pass_blocks.specs.Runs.{body_of, Runs, Begun, highest_start, row_places};
ghost use Rattle.mir.specs.Most.{most_blocks};

use mir::most;
use rewrite::Fault;
use rewrite_progress::{Progress, Run};

// In the working table the rows of parts come first; from here on it has the types of the fresh numbers.
pub const FRESH: usize = rewrite_parts::ROWS;

// The most values of a list of an accepted routine: each may be rebuilt under a number of its own.
const LISTED: usize = 16;

// The places of the working table.
pub const WORK: usize = FRESH + LISTED * most::SLOTS;

// Writes the blocks from `to` on; `work` is given the types of the fresh numbers, `dropped` the marks of the values that are
// left out.
pub fn run_blocks(
    run: Run,
    to: usize,
    dropped: &mut [bool],
    work: &mut [u16],
    out: &mut [u8],
) -> Result<Progress, Fault>
    requires near { to ≤ highest_start }
    requires few { run.code.bounds.blocks ≤ most_blocks }
    requires rows { row_places ≤ length work.old }
    ensures put_low { PutLow routine_low result }
    ensures runs { (h : ChosenRun run.entry)
        → Runs (rewritten_blocks run.entry.settings h.accepted.routine) to out.old (fresh_in work.old) dropped.old
        out.new (fresh_in work.new) dropped.new result }
{
    let start = Progress {
        to,
        ..Progress::default()
    };
    let mut tracked: [bool; most::VALUES] = [false; most::VALUES];
    rewrite_blocks::put_blocks(run, start, &mut tracked, dropped, work, out)
}

// Writes the blocks from `to` on, where there is room for their `size` bytes: copied from `body`, where a run wrote them, or by
// another run, where they are longer than that. (`size` is no length of `body`: the blocks may be longer or shorter than the buffer.)
pub fn put_body(run: Run, body: &[u8], size: usize, out: &mut [u8], to: usize)
    requires near { to ≤ highest_start }
    requires few { run.code.bounds.blocks ≤ most_blocks }
    requires room { to + size ≤ length out.old }
    ensures { (h : ChosenRun run.entry)
        → Begun (rewritten_blocks run.entry.settings h.accepted.routine) body.now size
        → out.new ≡ sets out.old to (body_of (rewritten_blocks run.entry.settings h.accepted.routine)) }
{
    if size <= body.len() {
        bytes_emit::copy_whole(&body[..size], out, to);
        return;
    }
    let mut work: [u16; WORK] = [0; WORK];
    let mut dropped: [bool; most::VALUES] = [false; most::VALUES];
    let _ = run_blocks(run, to, &mut dropped, &mut work, out);
}
