// The numbers that the entries of the pass take and give: the settings, the numbers of an answer, the totals.
#![tactic(auto)]

ghost use Rattle.std.specs.Prelude.{◌≡◌, List, ℕ};
ghost use Rattle.std.proofs.lemmas.List.Edits.{sets};
ghost use Rattle.fold.specs.declared.Edition.{Edition};
ghost use Rattle.rewrite.specs.Outcome.{settings_of};
ghost use Rattle.shelf.specs.Answer.{answer as given};
ghost use Rattle.pass_numbers.specs.Choices.{edition_of, settings_by};
ghost use Rattle.pass_numbers.specs.Ten.{eleven_numbers, ten_numbers};
ghost use Rattle.pass_numbers.specs.Totals.{totals_of, with_counts};

use fold::{Edition, Settings};
use rewrite::Counts;

// The largest max_aggregate_size that is not refused; all greater ones are refused alike.
pub const LARGEST: u8 = 16;

// The places of the choices.
const TUPLES: usize = 0;

const STRUCTS: usize = 1;

const MOST: usize = 2;

const EDITION: usize = 3;

// The place of the page's length in an answer.
const PAGE: usize = 10;

// What all runs of one caller counted (sroa.rs, `Stats`, which `run(&mut self)` adds to); a total stays at the largest
// number once it is there. (No generic `Counts<N>`: the definitions and lemmas on a run's counts, up to the machine's,
// would name its type of number too, and the five would still be widened and added each by its name, as here.)
#[derive(Clone, Copy, Default)]
pub struct Totals {
    pub builds: u64,
    pub extracts: u64,
    pub inserts: u64,
    pub assigns: u64,
    pub materializations: u64,
}

impl From<Counts> for Totals {
    ghost from_gives = { λ c t. t ≡ totals_of c };

    fn from(c: Counts) -> Totals {
        Totals {
            builds: u64::from(c.builds),
            extracts: u64::from(c.extracts),
            inserts: u64::from(c.inserts),
            assigns: u64::from(c.assigns),
            materializations: u64::from(c.materializations),
        }
    }
}

// A refusal's number and offset, the result, the five counts, the shelf reason, and how many bytes the rewritten routine has. (Numbers
// all ten, since the C interface hands them on as ten u64.)
#[derive(Clone, Copy, Default)]
pub struct Numbers {
    pub number: u64,
    pub offset: u64,
    pub result: u64,
    pub counts: Totals,
    pub reason: u64,
    pub size: u64,
}

// Settings of edition 1; a flag is on when its number is not 0. (Numbers, since the C interface takes a setting as a u64.)
pub fn settings_of(tuples: u64, structs: u64, most: u64) -> Settings
    ensures same { (room : ℕ) (s : List ℕ) → given result room s ≡ given (settings_of tuples structs most) room s }
    ensures edition { result.edition ≡ Edition.First }
{
    Settings {
        tuples: tuples != 0,
        structs: structs != 0,
        most: most.min(LARGEST as u64 + 1) as u8,
        edition: Edition::First,
    }
}

// Edition 2 is chosen with the number 2 alone.
fn edition_of(n: u64) -> Edition
    ensures { result ≡ edition_of n }
{
    if n == 2 {
        Edition::Second
    } else {
        Edition::First
    }
}

// Settings by place; a choice that is missing has its default, and those behind the edition are not read here.
pub fn settings_by(choices: &[u64]) -> Settings
    ensures { (room : ℕ) (s : List ℕ) → given result room s ≡ given (settings_by choices.now) room s }
{
    let most = table::at(choices, MOST, 8);
    Settings {
        tuples: table::at(choices, TUPLES, 1) != 0,
        structs: table::at(choices, STRUCTS, 1) != 0,
        most: most.min(LARGEST as u64 + 1) as u8,
        edition: edition_of(table::at(choices, EDITION, 1)),
    }
}

// The ten numbers, from the first place on, as far as there is room for them.
pub fn put_numbers(answer: &mut [u64], n: Numbers)
    ensures { answer.new ≡ sets answer.old 0 (ten_numbers n) }
{
    let numbers = [
        n.number,
        n.offset,
        n.result,
        n.counts.builds,
        n.counts.extracts,
        n.counts.inserts,
        n.counts.assigns,
        n.counts.materializations,
        n.reason,
        n.size,
    ];
    let room = answer.len().min(numbers.len());
    answer[..room].copy_from_slice(&numbers[..room]);
}

// The ten numbers and, behind them, the length of the page, which is 0: there is no page yet.
pub fn put_answer(answer: &mut [u64], n: Numbers)
    ensures { answer.new ≡ sets answer.old 0 (eleven_numbers n) }
{
    put_numbers(answer, n);
    table::put(answer, PAGE, 0);
}

// The totals with the counts of one more run.
pub fn with_counts(t: Totals, c: Counts) -> Totals
    ensures { result ≡ with_counts t c }
{
    let run = Totals::from(c);
    Totals {
        builds: t.builds.saturating_add(run.builds),
        extracts: t.extracts.saturating_add(run.extracts),
        inserts: t.inserts.saturating_add(run.inserts),
        assigns: t.assigns.saturating_add(run.assigns),
        materializations: t.materializations.saturating_add(run.materializations),
    }
}
