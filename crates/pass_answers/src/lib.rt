// What a call of the pass answers, and the numbers and totals that follow from it.
#![tactic(auto)]

ghost use Rattle.std.specs.Prelude.{◌≡◌, not, eqb, Ok};
ghost use Rattle.rewrite.specs.Fault.{number_of_fault};
ghost use Rattle.shelf_test.specs.Number.{number_of_reason};
ghost use Rattle.pass_answers.specs.declared.Refused.{Refused};
ghost use Rattle.pass_answers.specs.Numbers.{acceptance, as_refusal, as_answer};
ghost use Rattle.pass_answers.specs.Totals.{after_answer};

use bytes_wire::Refusal;
use pass_numbers::{Numbers, Totals};
use rewrite::{Counts, Fault};
use shelf_test::ShelfReason;

// Why a call is refused.
#[derive(Clone, Copy, Debug, PartialEq, Eq)]
pub enum Refused {
    // Rows 1 to 9 of document 01's table: the input is no routine.
    Malformed(Refusal),
    // Row 10, and 14 and 15 of document 02, wish 5: of these the first that the rewriting meets.
    Faulty(Fault),
    // Row 11: the output is longer than the lent buffer.
    NoRoom,
    // Row 12: max_aggregate_size is above 16.
    TooLarge,
}

impl From<Refusal> for Refused {
    ghost from_gives = { λ x r. r ≡ Refused.Malformed x };

    fn from(refusal: Refusal) -> Refused {
        Refused::Malformed(refusal)
    }
}

impl From<Fault> for Refused {
    ghost from_gives = { λ x r. r ≡ Refused.Faulty x };

    fn from(fault: Fault) -> Refused {
        Refused::Faulty(fault)
    }
}

// What is not refused: the counts, the shelf reason, and how many bytes the rewritten routine has.
#[derive(Clone, Copy)]
pub struct Lowered {
    pub counts: Counts,
    pub reason: Result<(), ShelfReason>,
    pub size: usize,
}

impl Lowered {
    pub fn new(c: Counts, reason: Result<(), ShelfReason>, size: usize) -> Lowered
        ensures { as_answer (Ok result) ≡ acceptance (not (eqb c.builds 0)) c (number_of_reason reason) size }
    {
        Lowered {
            counts: c,
            reason,
            size,
        }
    }

    // The result: whether the routine is changed, which goes by the builds.
    pub fn changed(self) -> bool
        ensures { result ≡ not (eqb self.counts.builds 0) }
    {
        0 < self.counts.builds
    }
}

// The number of a fault.
pub fn fault_number(f: Fault) -> u8
    ensures { result ≡ number_of_fault f }
{
    match f {
        Fault::Clash => 10,
        Fault::Looped => 14,
        Fault::Overfull => 15,
    }
}

// The number and offset that the documents give a refusal.
fn refusal_of(r: Refused) -> Numbers
    ensures { result ≡ as_refusal r }
{
    let (number, offset) = match r {
        Refused::Malformed(refusal) => (bytes_wire::cause_number(refusal.cause), refusal.offset),
        Refused::Faulty(fault) => (fault_number(fault), 0),
        Refused::NoRoom => (11, 0),
        Refused::TooLarge => (12, 0),
    };
    Numbers {
        number: number as u64,
        offset: offset as u64,
        ..Numbers::default()
    }
}

// The number and values that document 01 gives an answer.
pub fn numbers_of(a: Result<Lowered, Refused>) -> Numbers
    ensures { result ≡ as_answer a }
{
    match a {
        Err(r) => refusal_of(r),
        Ok(l) => Numbers {
            result: l.changed() as u64,
            counts: Totals::from(l.counts),
            reason: shelf_test::reason_number(l.reason) as u64,
            size: l.size as u64,
            ..Numbers::default()
        },
    }
}

// The totals after an answer: a refusal counts nothing.
pub fn totals_after(t: Totals, a: Result<Lowered, Refused>) -> Totals
    ensures { result ≡ after_answer t a }
{
    a.map_or(t, |l| pass_numbers::with_counts(t, l.counts))
}
