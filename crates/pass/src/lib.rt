// The entries of the pass: for any caller, and for one that lends the totals of all its runs.
#![tactic(auto)]

ghost use Rattle.rewrite.specs.Outcome.{settings_of};
ghost use Rattle.pass_numbers.specs.Choices.{settings_by};
ghost use Rattle.pass.specs.Promise.{Lowers, LowersWith, Counted};

use fold::Settings;
use pass_answers::{Lowered, Refused};
use pass_numbers::Totals;

// For any caller, in numbers, as the C interface takes and gives them: a flag is on when its number is not 0. For every input and
// every number, `answer` is given the refusal's number and offset, the result, the five counts, the shelf reason and the length of
// the rewritten routine, as far as it has room for them; `output` is given the rewritten routine, or stays as it was.
pub fn lower(
    input: &[u8],
    output: &mut [u8],
    tuples: u64,
    structs: u64,
    most: u64,
    answer: &mut [u64],
)
    ensures { Lowers (settings_of tuples structs most)
        input.now output.old output.new answer.old answer.new }
{
    let settings = pass_numbers::settings_of(tuples, structs, most);
    let a = pass_lower::lower_into(input, output, settings);
    pass_numbers::put_numbers(answer, pass_answers::numbers_of(a));
}

// The same with choices by place, the edition among them, and eleven numbers: behind the length of the rewritten routine
// stands that of the page, 0. Nothing is written to `page` yet.
pub fn lower_with(
    input: &[u8],
    output: &mut [u8],
    page: &mut [u8],
    choices: &[u64],
    answer: &mut [u64],
)
    ensures { LowersWith (settings_by choices.now)
        input.now output.old output.new page.old page.new answer.old answer.new }
{
    let settings = pass_numbers::settings_by(choices);
    let a = pass_lower::lower_into(input, output, settings);
    pass_numbers::put_answer(answer, pass_answers::numbers_of(a));
}

// An answer, and the totals with its counts.
#[derive(Clone, Copy)]
pub struct Ran {
    pub answer: Result<Lowered, Refused>,
    pub totals: Totals,
}

// The run with the totals by value. (Beside `run`: tried in one, and the proof did not close, since what is known of lent totals says
// nothing of their ranges.)
fn lower_counted(input: &[u8], output: &mut [u8], settings: Settings, totals: Totals) -> Ran
    ensures { Counted settings input.now output.old output.new result.answer totals result.totals }
{
    let answer = pass_lower::lower_into(input, output, settings);
    Ran {
        answer,
        totals: pass_answers::totals_after(totals, answer),
    }
}

// One run of the pass; the totals that the caller lends have its counts added.
pub fn run(
    input: &[u8],
    output: &mut [u8],
    settings: Settings,
    totals: &mut Totals,
) -> Result<Lowered, Refused>
    ensures { Counted settings input.now output.old output.new result totals.old totals.new }
{
    let r = lower_counted(input, output, settings, *totals);
    *totals = r.totals;
    r.answer
}
