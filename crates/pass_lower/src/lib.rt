// The whole pass, bytes to bytes: reads a routine, chooses, and has the output written.
#![tactic(auto)]

ghost use Rattle.std.specs.Prelude.{◌≤◌, length};
ghost use Rattle.shelf.specs.Answer.{answer as given};
ghost use Rattle.pass_answers.specs.Numbers.{Answers};
ghost use Rattle.pass_input.specs.Accepted.{AcceptedCode};

use bytes_index::Code;
use fold::Settings;
use pass_answers::{Lowered, Refused};
use pass_numbers::LARGEST;
use rewrite_progress::{FLAGS, Run, SKIPS};

// Lowers an accepted routine by its table of facts; one without builds, or of which no build is folded, is not changed.
fn lower_read(code: Code, settings: Settings, out: &mut [u8]) -> Result<Lowered, Refused>
    requires accepted { AcceptedCode code }
    requires small { settings.most ≤ 16 }
    ensures { Answers (given settings (length out.old) code.entry.bytes.now) result out.old out.new }
{
    if !fold_choose::any_builds(code) {
        return pass_keep::lower_same(code, settings, out);
    }
    let mut choice: [bool; FLAGS] = [false; FLAGS];
    fold_routine::choose_folds(code, settings, &mut choice);
    if !table::any(&choice[..SKIPS]) {
        return pass_keep::lower_same(code, settings, out);
    }
    let run = Run {
        code,
        settings,
        choice: &choice,
    };
    pass_write::lower_folded(run, out)
}

// The whole pass: 12, then 1 to 9, then 10, then 11; else the rewritten routine from the output's first byte on.
pub fn lower_into(input: &[u8], out: &mut [u8], settings: Settings) -> Result<Lowered, Refused>
    ensures { Answers (given settings (length out.old) input.now) result out.old out.new }
{
    if LARGEST < settings.most {
        return Err(Refused::TooLarge);
    }
    let mut facts: [u16; bytes_index::SIZE] = [0; bytes_index::SIZE];
    let bounds = bytes_read::read_routine(input, &mut facts)?;
    let code = Code {
        bytes: input,
        bounds,
        facts: &facts,
    };
    lower_read(code, settings, out)
}
