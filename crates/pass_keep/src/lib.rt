// A routine that is not changed: the output is the input.
#![tactic(auto)]

ghost use Rattle.std.specs.Prelude.{length};
ghost use Rattle.shelf.specs.Answer.{answer as given};
ghost use Rattle.pass_answers.specs.Numbers.{Answers};
ghost use Rattle.pass_input.specs.Accepted.{UnchangedCode};

use bytes_index::Code;
use fold::Settings;
use pass_answers::{Lowered, Refused};
use rewrite::Counts;

// Answers for a routine that is not changed.
pub fn lower_same(code: Code, settings: Settings, out: &mut [u8]) -> Result<Lowered, Refused>
    requires { UnchangedCode settings code }
    ensures { Answers (given settings (length out.old) code.entry.bytes.now) result out.old out.new }
{
    let size = code.bytes.len();
    // (A test, and no `?` behind `get_mut`: the library says of that nothing of what the slice ends as, so that what is copied would not be known.)
    if out.len() < size {
        return Err(Refused::NoRoom);
    }
    bytes_emit::copy_whole(code.bytes, out, 0);
    let reason = shelf_test::input_reason(code);
    Ok(Lowered::new(Counts::default(), reason, size))
}
