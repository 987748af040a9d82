// Rebuilds before what needs them: a Call's tracked arguments, a Store's tracked value, the tracked values of a Return.
// The builds are written first, then the instruction or terminator with the fresh numbers put in.
#![tactic(auto)]

ghost use Rattle.std.specs.Prelude.{◌≡◌, ℕ, ◌+◌, ◌≤◌, ◌<◌};
ghost use Rattle.rewrite.specs.Fault.{last_number};
ghost use Rattle.rewrite_parts.specs.Rows.{rows_in};
ghost use Rattle.rewrite_list.specs.Lists.{most_copied};
ghost use Rattle.rewrite_progress.specs.Effect.{low_enough, Low, PutLow, counts_below, most_lines};
ghost use Rattle.rewrite_before.specs.Materialized.{onward, call_list, store_list, anew_most, call_most, list_starts};
ghost use Rattle.rewrite_before.specs.Materialized.{AnewWritten, CallWritten, InstructionWritten, CallPut, StorePut, ReturnPut};
ghost use Rattle.bytes_emit.specs.Written.{value_room, rebuilt_room, call_room};

use bytes_index::Code;
use mir::kind::Kind;
use rewrite::{Counts, Fault};
use rewrite_list::{ListedValues, ValueList, Written};
use rewrite_progress::Progress;
use rewrite_wanted::Asks;

// Where rebuilds are wanted: a slot of a routine, and which values are tracked there.
#[derive(Clone, Copy)]
pub struct Site<'a> {
    pub code: Code<'a>,
    pub slot: u16,
    pub tracked: &'a [bool],
}

// In the fields of a Call the arguments stand behind the dests with their number, the function, and their own number.
const CALL_FIRST: usize = 4;

// How many bytes the bit map and the kind in front of an instruction have.
const KIND_BYTES: usize = 2;

// The values of a Return stand behind its kind and their number.
const RETURN_COUNT: usize = 1;

const RETURN_VALUES: usize = 2;

// The output is written up to `to`: so many instructions further, and so many more materializations.
pub fn put_further(p: Progress, to: usize, lines: u32, made: u32) -> Progress
    requires { (p.lines < counts_below) × ((p.counts.materializations < counts_below) × ((lines < most_lines) × (made ≤ last_number))) }
    ensures { result ≡ onward p to lines made }
{
    Progress {
        to,
        lines: p.lines + lines,
        counts: Counts {
            materializations: p.counts.materializations + made,
            ..p.counts
        },
        ..p
    }
}

// A slot's instruction as it stands, behind what is written.
fn put_kept(out: &mut [u8], p: Progress, code: Code, slot: u16) -> Progress
    requires { (p.to < value_room) × ((p.lines < counts_below) × (p.counts.materializations < counts_below)) }
    ensures onward { result ≡ onward p result.to 1 0 }
    ensures upper_bound { result.to ≤ p.to + most_copied }
    ensures instruction_written { InstructionWritten code.entry slot out.old out.new p.to result.to }
{
    let to = rewrite_list::copy_bytes(out, p.to, code.slot_bytes(slot));
    put_further(p, to, 1, 0)
}

// Writes the fields up to `end` with the fresh numbers put in from number `from.fresh` on, and returns the place behind them.
fn put_anew(out: &mut [u8], from: Written, values: ListedValues, end: usize) -> usize
    requires { (from.to < rebuilt_room) × (from.fresh < counts_below) }
    ensures upper_bound { result ≤ from.to + anew_most }
    ensures anew_written { AnewWritten values.entry from end out.old out.new result }
{
    let ListedValues { fields, list, .. } = values;
    let front = rewrite_list::copy_bytes(out, from.to, bytes_field::between(fields, 0, list.first));
    let back = rewrite_list::put_values(out, Written { to: front, ..from }, values);
    let behind = bytes_operands::values_end(fields, list.first, 0, 0, list.many);
    rewrite_list::copy_bytes(out, back, bytes_field::between(fields, behind, end))
}

// The arguments of the Call that has the fields f.
fn call_list(f: &[u8]) -> ValueList
    ensures { (result ≡ call_list f.now) × (result.first ≤ list_starts) }
{
    let first = CALL_FIRST + bytes_field::ID * bytes_wire::byte_at(f, 0) as usize;
    let many = bytes_wire::byte_at(f, first - 1);
    let behind = bytes_operands::values_end(f, first, 0, 0, many);
    ValueList {
        first,
        many,
        asks: Asks::Types {
            first: behind + 1,
            many: bytes_wire::byte_at(f, behind),
        },
    }
}

// Writes a Call without span, expression id and comment: its fields up to `end` with the fresh numbers put in.
fn put_call_anew(out: &mut [u8], from: Written, values: ListedValues, end: usize) -> usize
    requires { (from.to < call_room) × (from.fresh < counts_below) }
    ensures upper_bound { result ≤ from.to + call_most }
    ensures call_written { CallWritten values.entry from end out.old out.new result }
{
    bytes_emit::put_kind(out, from.to, Kind::Call);
    let to = from.to + KIND_BYTES;
    put_anew(out, Written { to, ..from }, values, end)
}

// (`put_call`, `put_store` and `put_return` stay three: where the list stands, what goes in front of it, what is counted and whether the
// instruction may stay as it stands differ, and a function for all would take each of these and promise the three things it does.
// One for the builds and what follows them, of a Call and a Store, would take which of the two goes behind them and what it counts.)

// A slot's Call: rebuilds of its tracked arguments at aggregate parameter types, then the Call anew; as it stands where
// there are none.
pub fn put_call(
    out: &mut [u8],
    p: Progress,
    site: Site,
    work: &mut [u16],
) -> Result<Progress, Fault>
    requires { Low low_enough p }
    ensures by_index { (k : ℕ) → Low k p → PutLow (k + 1) result }
    ensures work_unchanged { rows_in work.new ≡ rows_in work.old }
    ensures call_put { CallPut site.entry.code site.entry.slot site.entry.tracked.now
        out.old work.old p out.new work.new result }
{
    let Site {
        code,
        slot,
        tracked,
    } = site;
    let t = code.instruction(slot);
    let fields = bytes_operands::own_fields(t);
    let list = call_list(fields);
    let values = ListedValues {
        code,
        fields,
        list,
        tracked,
    };
    let q = rewrite_list::put_builds(out, p, values, work)?;
    rewrite_progress::one_more(q.lines)?;
    if q.fresh == p.fresh {
        return Ok(put_kept(out, q, code, slot));
    }
    let from = Written {
        to: q.to,
        fresh: p.fresh,
    };
    let end = code
        .slot_size(slot)
        .saturating_sub(bytes_operands::fields_place(t));
    let to = put_call_anew(out, from, values, end);
    Ok(put_further(q, to, 1, q.fresh - p.fresh))
}

// The value of the Store that begins here.
fn store_list(t: &[u8]) -> ValueList
    ensures { (result ≡ store_list t.now) × (result.first < counts_below) }
{
    let own = bytes_operands::own_fields(t);
    let first = bytes_operands::fields_place(t) + bytes_operands::operand_first(own, Kind::Store);
    ValueList {
        first,
        many: 1,
        asks: Asks::Types {
            first: bytes_operands::value_end(t, first),
            many: 1,
        },
    }
}

// A slot's Store, which is not forwarded: a tracked value of an aggregate type is rebuilt before it.
pub fn put_store(
    out: &mut [u8],
    p: Progress,
    site: Site,
    work: &mut [u16],
) -> Result<Progress, Fault>
    requires { Low low_enough p }
    ensures by_index { (k : ℕ) → Low k p → PutLow (k + 1) result }
    ensures work_unchanged { rows_in work.new ≡ rows_in work.old }
    ensures store_put { StorePut site.entry.code site.entry.slot site.entry.tracked.now
        out.old work.old p out.new work.new result }
{
    let Site {
        code,
        slot,
        tracked,
    } = site;
    let fields = code.instruction(slot);
    let list = store_list(fields);
    let values = ListedValues {
        code,
        fields,
        list,
        tracked,
    };
    let q = rewrite_list::put_builds(out, p, values, work)?;
    rewrite_progress::one_more(q.lines)?;
    if q.fresh == p.fresh {
        return Ok(put_kept(out, q, code, slot));
    }
    let from = Written {
        to: q.to,
        fresh: p.fresh,
    };
    let to = put_anew(out, from, values, code.slot_size(slot));
    Ok(put_further(q, to, 1, 0))
}

// A slot's Return: rebuilds of its tracked values at their recorded types, then the Return with the fresh numbers.
pub fn put_return(
    out: &mut [u8],
    p: Progress,
    site: Site,
    work: &mut [u16],
) -> Result<Progress, Fault>
    requires { Low low_enough p }
    ensures by_index { (k : ℕ) → Low k p → PutLow (k + 1) result }
    ensures work_unchanged { rows_in work.new ≡ rows_in work.old }
    ensures return_put { ReturnPut site.entry.code site.entry.slot site.entry.tracked.now
        out.old work.old p out.new work.new result }
{
    let Site {
        code,
        slot,
        tracked,
    } = site;
    let fields = code.instruction(slot);
    let list = ValueList {
        first: RETURN_VALUES,
        many: bytes_wire::byte_at(fields, RETURN_COUNT),
        asks: Asks::Recorded,
    };
    let values = ListedValues {
        code,
        fields,
        list,
        tracked,
    };
    let q = rewrite_list::put_builds(out, p, values, work)?;
    let from = Written {
        to: q.to,
        fresh: p.fresh,
    };
    let to = put_anew(out, from, values, 0);
    Ok(put_further(q, to, 0, q.fresh - p.fresh))
}
