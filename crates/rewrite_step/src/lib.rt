// One instruction: what becomes of it is settled in the tables of tracked values, then put out.
#![tactic(auto)]

ghost use Rattle.std.specs.Prelude.{◌≡◌, ℕ, ◌+◌, ◌≤◌, ◌<◌, length};
ghost use Rattle.rewrite_parts.specs.Rows.{row_most, rows_size, used_below, rows_in};
ghost use Rattle.rewrite_progress.specs.Effect.{low_enough, Low, PutLow};
ghost use Rattle.rewrite_step.specs.Stepping.{staying, as_decided, lent_as, SteppedLow, SettlesStore, SettlesAll, PutsPiece, StepsOn};

use fold::Edition;
use mir::kind::Kind;
use rewrite::Fault;
use rewrite_arms::{Action, Counted, Used};
use rewrite_before::Site;
use rewrite_decide::Turn;
use rewrite_parts::ROWS;
use rewrite_progress::Progress;

// What becomes of an instruction. (A value and no closure: it is settled while the rows are lent, and carried out when the whole working
// table is.)
// Does: what is decided of it.
// Forwarded: a Store that goes into the parts of a tracked value.
// Call, Store: a Call, or any other Store, whose tracked values are rebuilt before it, in edition 1.
// Behind: an instruction of any kind that stays, behind the rebuilds of all that it reads, in edition 2.
#[derive(Clone, Copy)]
pub enum Rewrite {
    Does(Action),
    Forwarded,
    Call,
    Store,
    Behind,
}

// What becomes of an instruction that stays, of which edition 1 makes this.
fn staying(edition: Edition, first: Rewrite) -> Rewrite
    ensures { result ≡ staying edition first }
{
    match edition {
        Edition::First => first,
        Edition::Second => Rewrite::Behind,
    }
}

// What becomes of an instruction of which this is decided.
fn as_decided(edition: Edition, action: Action) -> Rewrite
    ensures { result ≡ as_decided edition action }
{
    match action {
        Action::Keep => staying(edition, Rewrite::Does(action)),
        Action::Track { .. } | Action::Assign { .. } => Rewrite::Does(action),
    }
}

// Settles what becomes of a Store, where the setting for tuples is on.
fn settle_store(turn: Turn, tracked: &mut [bool], rows: &mut [u16], used: usize) -> Used<Rewrite>
    requires { used < used_below }
    ensures used_bound { result.used ≤ used + row_most }
    ensures settles_store { SettlesStore turn.entry.code turn.entry.settings turn.entry.slot
        tracked.old rows.old used tracked.new rows.new result }
{
    let stays = Used {
        value: staying(turn.settings.edition, Rewrite::Store),
        used,
    };
    if !rewrite_chains::walkable(turn.code, turn.slot, Kind::Store, turn.settings.edition) {
        return stays;
    }
    match rewrite_chains::forward_store(turn.code, turn.slot, tracked, rows, used) {
        Some(end) => Used {
            value: Rewrite::Forwarded,
            used: end,
        },
        None => stays,
    }
}

// Settles what becomes of an instruction.
fn settle(turn: Turn, tracked: &mut [bool], rows: &mut [u16], used: usize) -> Used<Rewrite>
    requires { used < used_below }
    ensures used_bound { result.used ≤ used + row_most }
    ensures settles_all { SettlesAll turn.entry.code turn.entry.settings turn.entry.slot turn.entry.fold
        tracked.old rows.old used tracked.new rows.new result }
{
    let edition = turn.settings.edition;
    let kind = bytes_index::instruction_kind(turn.code.facts, turn.slot);
    if kind == Some(Kind::Call) {
        return Used {
            value: staying(edition, Rewrite::Call),
            used,
        };
    }
    if kind != Some(Kind::Store) {
        let d = rewrite_decide::decide(turn, tracked, rows, used);
        return Used {
            value: as_decided(edition, d.value),
            used: d.used,
        };
    }
    if !turn.settings.tuples {
        return Used {
            value: staying(edition, Rewrite::Does(Action::Keep)),
            used,
        };
    }
    settle_store(turn, tracked, rows, used)
}

// Puts out what is settled of a slot's instruction.
fn carry_out(
    rewrite: Rewrite,
    site: Site,
    dropped: &mut [bool],
    work: &mut [u16],
    out: &mut [u8],
    p: Progress,
) -> Result<Progress, Fault>
    requires { Low low_enough p }
    ensures by_index { (k : ℕ) → Low k p → PutLow (k + 1) result }
    ensures work_unchanged { rows_in work.new ≡ rows_in work.old }
    ensures puts_piece { PutsPiece site.entry.code site.entry.slot rewrite
        (lent_as site.entry.tracked.now dropped.old work.old out.old) p
        (lent_as site.entry.tracked.now dropped.new work.new out.new) result }
{
    match rewrite {
        Rewrite::Does(action) => {
            rewrite_perform::perform(action, site.code, site.slot, out, p, dropped)
        }
        Rewrite::Forwarded => Ok(rewrite_perform::left_out(p, Counted::Insert)),
        Rewrite::Call => rewrite_before::put_call(out, p, site, work),
        Rewrite::Store => rewrite_before::put_store(out, p, site, work),
        Rewrite::Behind => rewrite_keep::put_behind(out, p, site, work),
    }
}

// One step: an instruction. (The tables are lent one by one: through a struct that holds them a caller would not know any more that their
// lengths stay.)
pub fn step(
    turn: Turn,
    tracked: &mut [bool],
    dropped: &mut [bool],
    work: &mut [u16],
    out: &mut [u8],
    w: Used<Progress>,
) -> Result<Used<Progress>, Fault>
    requires { Low low_enough w.value × ((w.used < used_below) × (rows_size ≤ length work.old)) }
    ensures by_index { (k : ℕ) → Low k w.value → SteppedLow (k + 1) (w.used + row_most) result }
    ensures steps_on { StepsOn turn.entry.code turn.entry.settings turn.entry.slot turn.entry.fold
        (lent_as tracked.old dropped.old work.old out.old) w
        (lent_as tracked.new dropped.new work.new out.new) result }
{
    let d = settle(turn, tracked, &mut work[..ROWS], w.used);
    let site = Site {
        code: turn.code,
        slot: turn.slot,
        tracked,
    };
    let progress = carry_out(d.value, site, dropped, work, out, w.value)?;
    Ok(Used {
        value: progress,
        used: d.used,
    })
}
