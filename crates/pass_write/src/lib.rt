// The output of a routine whose builds are chosen. The blocks are run over first, into a buffer of their own, which tells how
// long they are and which fresh numbers they take; then the head is written, and the blocks behind it.
#![tactic(auto)]

ghost use Rattle.std.specs.Prelude.{◌≡◌, length, Ok};
ghost use Rattle.shelf.specs.Answer.{answer as given};
ghost use Rattle.pass_answers.specs.Numbers.{Answers};
ghost use Rattle.pass_input.specs.Accepted.{ChosenRun};
ghost use Rattle.pass_write.specs.Written.{Roomy, Measured, Headed};
ghost use Rattle.fold.specs.declared.Edition.{Edition};

use fold::Edition;
use mir::most;
use pass_answers::{Lowered, Refused};
use rewrite_progress::{NUMBERS, Progress, Run};

// The places of the buffer that the blocks are run into: nearly all routines fit; longer ones are run over again.
const BODY: usize = 8192;

// The places of edition 2's working table: behind the rows one for each number that two bytes have.
const SECOND_WORK: usize = pass_blocks::FRESH + NUMBERS as usize;

// What a run over the blocks into a buffer gave: how far it went, the types of the fresh numbers, the marks of the values that
// are left out, and the buffer.
#[derive(Clone, Copy)]
pub struct Trial<'a> {
    pub progress: Progress,
    pub fresh: &'a [u16],
    pub dropped: &'a [bool],
    pub body: &'a [u8],
}

// Writes the blocks behind the head, which ends at `to`, and answers.
fn write_body(run: Run, trial: Trial, out: &mut [u8], to: usize) -> Lowered
    requires { Headed run trial out.old to }
    ensures { (h : Headed run.entry trial.entry out.old to)
        → Answers (given run.entry.settings (length h.before) run.entry.code.bytes.now) (Ok result) h.before out.new }
{
    let p = trial.progress;
    pass_blocks::put_body(run, trial.body, p.to, out, to);
    let next = (run.code.bounds.next as u32 + p.fresh) as u16;
    let reason = shelf_test::reason(run.code, out, to, next, trial.dropped);
    Lowered::new(p.counts, reason, to + p.to)
}

// Writes the output where it has room.
fn write_measured(run: Run, trial: Trial, out: &mut [u8]) -> Result<Lowered, Refused>
    requires { Measured run trial }
    ensures { Answers (given run.entry.settings (length out.old) run.entry.code.bytes.now) result out.old out.new }
{
    let p = trial.progress;
    let to = rewrite_opening::put_opening(run.code, trial.fresh, p.fresh, p.to, out).ok_or(
        Refused::NoRoom,
    )?;
    Ok(write_body(run, trial, out, to))
}

// Runs over the blocks, then writes the output; `work` is the working table.
fn lower_over(run: Run, work: &mut [u16], out: &mut [u8]) -> Result<Lowered, Refused>
    requires { Roomy run work.old }
    ensures { Answers (given run.entry.settings (length out.old) run.entry.code.bytes.now) result out.old out.new }
{
    let mut dropped: [bool; most::VALUES] = [false; most::VALUES];
    let mut body: [u8; BODY] = [0; BODY];
    let p = pass_blocks::run_blocks(run, 0, &mut dropped, work, &mut body)?;
    let types = &work[pass_blocks::FRESH..];
    let trial = Trial {
        progress: p,
        fresh: &types[..p.fresh as usize],
        dropped: &dropped,
        body: &body,
    };
    write_measured(run, trial, out)
}

// In edition 1.
fn lower_first(run: Run, out: &mut [u8]) -> Result<Lowered, Refused>
    requires chosen { ChosenRun run }
    requires first { run.settings.edition ≡ Edition.First }
    ensures { Answers (given run.entry.settings (length out.old) run.entry.code.bytes.now) result out.old out.new }
{
    let mut work: [u16; pass_blocks::WORK] = [0; pass_blocks::WORK];
    lower_over(run, &mut work, out)
}

// In edition 2, whose numbers may be as many as two bytes count. (Two functions, so that edition 1 neither clears this table nor has it
// in its frame.)
fn lower_second(run: Run, out: &mut [u8]) -> Result<Lowered, Refused>
    requires { ChosenRun run }
    ensures { Answers (given run.entry.settings (length out.old) run.entry.code.bytes.now) result out.old out.new }
{
    let mut work: [u16; SECOND_WORK] = [0; SECOND_WORK];
    lower_over(run, &mut work, out)
}

// Runs over the blocks, then writes the output.
pub fn lower_folded(run: Run, out: &mut [u8]) -> Result<Lowered, Refused>
    requires { ChosenRun run }
    ensures { Answers (given run.entry.settings (length out.old) run.entry.code.bytes.now) result out.old out.new }
{
    match run.settings.edition {
        Edition::First => lower_first(run, out),
        Edition::Second => lower_second(run, out),
    }
}
