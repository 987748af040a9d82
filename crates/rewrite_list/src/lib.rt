// A list of values some of which are rebuilt: the builds, then the values with the fresh numbers put in.
#![tactic(auto)]

pub mod values;

ghost use Rattle.std.specs.Prelude.{◌≡◌, ◌+◌, ◌≤◌, ◌<◌, length, IfOk};
ghost use Rattle.rewrite_parts.specs.Rows.{rows_in};
ghost use Rattle.bytes_emit.specs.Written.{Writes, value_room, instruction_room, build_room, rebuilt_room};
ghost use Rattle.rewrite_build.specs.Written.{rebuild_most, value_most};
ghost use Rattle.table.specs.Number.{numbers_below};
ghost use Rattle.rewrite_progress.specs.Effect.{low_enough, Low, counts_below, met};
ghost use Rattle.rewrite_list.specs.Lists.{most_copied, most_listed, PutFew, Roomy, fresh_below, values_most, line_fault};
ghost use Rattle.rewrite_list.specs.Lists.{TrackedPut, WantedPut, AllPut, WantedWritten, AllWritten};

use bytes_index::Code;
use mir::{Value, ValueId};
use rewrite::Fault;
use rewrite_parts::ROWS;
use rewrite_progress::{NUMBERS, Progress};
use rewrite_wanted::Build;
pub use values::{ListedValues, ValueList};

// The most bytes that are copied at once.
const MOST_COPIED: usize = 1024;

// Where a writer of values is: the place behind them, and the fresh numbers put in. (How low both are is no fact of the type, as with
// Progress: each writer leaves room for those that it calls, so that each has another bound.)
#[derive(Clone, Copy)]
pub struct Written {
    pub to: usize,
    pub fresh: u32,
}

// Fresh value k, of those from number `next` on.
fn fresh_value(next: u16, k: u32) -> ValueId
    ensures { next + k < numbers_below → result.0 ≡ next + k }
{
    ValueId(next.wrapping_add((k % NUMBERS) as u16))
}

// Copies a part, where so many bytes may be copied at once, and returns the place behind it.
pub fn copy_bytes(out: &mut [u8], to: usize, part: &[u8]) -> usize
    requires { to < value_room }
    ensures upper_bound { result ≤ to + most_copied }
    ensures writes { length part.now ≤ most_copied → Writes part.now out.old out.new to result }
{
    let n = part.len();
    if MOST_COPIED < n {
        return to;
    }
    bytes_emit::copy(out, to, part)
}

// The rows of the working table.
fn rows(work: &[u16]) -> &[u16]
    ensures { result.now ≡ rows_in work.now }
{
    &work[..ROWS.min(work.len())]
}

// Writes the rebuild of a tracked value, under the number d.
fn put_tracked(
    out: &mut [u8],
    to: usize,
    code: Code,
    work: &[u16],
    build: Build,
    d: ValueId,
) -> Result<usize, Fault>
    requires { to < rebuilt_room }
    ensures to_bound { IfOk result (λ end. end ≤ to + rebuild_most) }
    ensures tracked_put { TrackedPut code.entry work.now build d out.old out.new to result }
{
    let parts = rewrite_parts::row(rows(work), build.value);
    rewrite_build::put_rebuild(out, to, code, build.named, d, parts, parts.len())
}

// One more instruction of a block that has so many, where one is added: none past the last number.
fn one_line(added: bool, lines: u32) -> Result<(), Fault>
    ensures { met result ≡ line_fault added lines }
{
    if added {
        return rewrite_progress::one_more(lines);
    }
    Ok(())
}

// What is wanted of a value: nothing, or its rebuild, under the next fresh number. (`work` is two tables in one slice, the rows and from
// `ROWS` on the types of the fresh numbers, as `rows_in` and `fresh_in` read it: of two, each function that is lent it would
// take both.)
fn put_wanted(
    out: &mut [u8],
    p: Progress,
    code: Code,
    work: &mut [u16],
    wants: Option<Build>,
) -> Result<Progress, Fault>
    requires { Roomy p }
    ensures put_few { PutFew p 1 result }
    ensures work_unchanged { rows_in work.new ≡ rows_in work.old }
    ensures wanted_put { WantedPut code.entry wants out.old work.old p out.new work.new result }
{
    let Some(build) = wants else {
        return Ok(p);
    };
    let d = fresh_value(code.bounds.next, p.fresh);
    let to = put_tracked(out, p.to, code, work, build, d)?;
    rewrite_progress::one_more(code.bounds.next as u32 + p.fresh)?;
    let added = p.to != to;
    one_line(added, p.lines)?;
    table::put(work, ROWS + p.fresh as usize, build.named.0);
    Ok(Progress {
        to,
        lines: p.lines + added as u32,
        fresh: p.fresh + 1,
        ..p
    })
}

// The rebuilds of the values of a list.
pub fn put_builds(
    out: &mut [u8],
    p: Progress,
    values: ListedValues,
    work: &mut [u16],
) -> Result<Progress, Fault>
    requires { Low low_enough p }
    ensures put_few { PutFew p most_listed result }
    ensures work_unchanged { rows_in work.new ≡ rows_in work.old }
    ensures all_put { AllPut values.entry out.old work.old p out.new work.new result }
{
    let ListedValues {
        code,
        fields,
        list,
        tracked,
    } = values;
    let mut q = p;
    let mut here = list.first;
    for i in 0..list.many {
        let wants = rewrite_wanted::wanted_at(code, fields, here, tracked, list.asks, i);
        q = put_wanted(out, q, code, work, wants)?;
        here = bytes_operands::value_end(fields, here);
    }
    Ok(q)
}

// The value that stands at place `at` of t: as it stands, or the fresh number it is rebuilt under.
fn put_wanted_value(
    out: &mut [u8],
    w: Written,
    t: &[u8],
    at: usize,
    next: u16,
    wants: Option<Build>,
) -> Written
    requires { (w.to < instruction_room) × (w.fresh < fresh_below) }
    ensures to_bound { (result.to ≤ w.to + value_most) × (result.fresh ≤ w.fresh + 1) }
    ensures wanted_written { WantedWritten next t.now at wants out.old w out.new result }
{
    match wants {
        None => {
            let to = rewrite_build::put_value_at(out, w.to, t, at, next);
            Written { to, ..w }
        }
        Some(_) => {
            let d = fresh_value(next, w.fresh);
            let to = bytes_emit::put_value(out, w.to, Value::Operand(d));
            Written {
                to,
                fresh: w.fresh + 1,
            }
        }
    }
}

// The values of a list, with the fresh numbers put in from number `from.fresh` on.
pub fn put_values(out: &mut [u8], from: Written, values: ListedValues) -> usize
    requires { (from.to < build_room) × (from.fresh < counts_below) }
    ensures upper_bound { result ≤ from.to + values_most }
    ensures all_written { AllWritten values.entry from out.old out.new result }
{
    let ListedValues {
        code,
        fields,
        list,
        tracked,
    } = values;
    let mut w = from;
    let mut here = list.first;
    for i in 0..list.many {
        let wants = rewrite_wanted::wanted_at(code, fields, here, tracked, list.asks, i);
        w = put_wanted_value(out, w, fields, here, code.bounds.next, wants);
        here = bytes_operands::value_end(fields, here);
    }
    w.to
}
