// How far the output of a run is written.
#![tactic(auto)]

ghost use Rattle.std.specs.Prelude.{◌≡◌};
ghost use Rattle.rewrite.specs.Fault.{full_fault};
ghost use Rattle.rewrite_progress.specs.Effect.{met};

use bytes_index::Code;
use fold::Settings;
use mir::most;
use rewrite::{Counts, Fault};

// The flags of a choice: one for each slot, whether its build is folded, and from here on one for each block, whether it is
// skipped. (Two tables in one slice, as `Follows` of specs/Chosen
// reads it: of two, each function that is lent the choice would take both.)
pub const SKIPS: usize = most::SLOTS;

pub const FLAGS: usize = SKIPS + most::BLOCKS;

// How many numbers two bytes have.
pub const NUMBERS: u32 = 65536;

// The last of them: neither the next value nor a block's count of instructions passes it.
pub const LAST_NUMBER: u32 = 65535;

// One more number, or one more instruction of a block, where there are n: none past the last number that two bytes have.
pub fn one_more(n: u32) -> Result<(), Fault>
    ensures { met result ≡ full_fault n }
{
    if n < LAST_NUMBER {
        return Ok(());
    }
    Err(Fault::Overfull)
}

// The place behind what is written, the instructions put out in the present block, the fresh numbers taken, the counts. (How low
// they are, `Low` of specs/Effect, is no fact of the type: each writer takes low ones and answers higher ones.)
#[derive(Clone, Copy, Default)]
pub struct Progress {
    pub to: usize,
    pub lines: u32,
    pub fresh: u32,
    pub counts: Counts,
}

// A run of the pass over an accepted routine: the routine, the settings, and which builds are folded and which blocks are skipped.
// (That there are at most 32 blocks stays a clause of the three functions that go over all of them: the others of a run look at no number
// of blocks, and where a run is made it is known of the accepted routine that it is of.)
#[derive(Clone, Copy)]
pub struct Run<'a> {
    pub code: Code<'a>,
    pub settings: Settings,
    pub choice: &'a [bool],
}
