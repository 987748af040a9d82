// Edition 2's rebuild of a value (document 02, wish 5): at its recorded type, where that is an aggregate, and the tracked parts that
// it keeps before the whole.
#![tactic(auto)]

ghost use Rattle.std.specs.Prelude.{◌≡◌, ◌≤◌, ◌<◌, ◌+◌, ◌*◌, true, false, get_or, IfOk};
ghost use Rattle.rewrite_parts.specs.Rows.{most_parts, rows_in};
ghost use Rattle.rewrite.specs.Fault.{first_met, full_fault};
ghost use Rattle.rewrite_progress.specs.Effect.{met};
ghost use Rattle.table.specs.Number.{numbers_below};
ghost use Rattle.rewrite_descent.specs.Descent.{number_taken, Spacious, PutDeeper, PartStands, Begins, WholePut, DeepPut};

use bytes_index::Code;
use mir::ValueId;
use rewrite::Fault;
use rewrite_build::Placed;
use rewrite_parts::ROWS;
use rewrite_progress::{NUMBERS, Progress};
use rewrite_wanted::{Asks, Build};

// The most parts of a value.
const MOST_PARTS: usize = 16;

// A routine, and which of its values are tracked where rebuilds are put.
#[derive(Clone, Copy)]
pub struct Site<'a> {
    pub code: Code<'a>,
    pub tracked: &'a [bool],
}

// The rows of the working table.
fn rows(work: &[u16]) -> &[u16]
    ensures { result.now ≡ rows_in work.now }
{
    &work[..ROWS.min(work.len())]
}

// Where part `k` of a tracked value stands.
fn part_place(work: &[u16], v: ValueId, k: u8) -> usize
    ensures { PartStands work.now v k result }
{
    table::place(rewrite_parts::row(rows(work), v), k as usize)
}

// The number that a value took, of the fresh ones that were so many before and after: the last of them, or none, which is 0.
pub fn number_taken(next: u16, before: u32, after: u32) -> u16
    ensures { next + after < numbers_below → result ≡ number_taken next before after }
{
    if before == after {
        return 0;
    }
    next.wrapping_add((after.saturating_sub(1) % NUMBERS) as u16)
}

// How many parts are kept where a rebuild begins: 14 where the value's own has begun and not ended, then 10.
fn begin(code: Code, work: &[u16], path: &[bool], build: Build) -> Result<u8, Fault>
    ensures few { IfOk result (λ n. n ≤ most_parts) }
    ensures clear { IfOk result (λ n. get_or path.now build.value.0 true ≡ false) }
    ensures begins { Begins code.entry work.now path.now build result }
{
    if table::at(path, build.value.0 as usize, true) {
        return Err(Fault::Looped);
    }
    let places = rewrite_parts::row(rows(work), build.value);
    if rewrite_build::clashes_at(code, build.named, places) {
        return Err(Fault::Clash);
    }
    Ok(rewrite_build::kept_count(code, build.named, places.len() as u8))
}

// One more number, and one more instruction of a block, where there are so many.
fn number_and_line(number: u32, lines: u32) -> Result<(), Fault>
    ensures { met result ≡ first_met (full_fault number) (full_fault lines) }
{
    rewrite_progress::one_more(number)?;
    rewrite_progress::one_more(lines)
}

// The whole, behind its parts, which have these fresh numbers: its own is the next one.
fn put_whole(
    out: &mut [u8],
    p: Progress,
    code: Code,
    work: &mut [u16],
    build: Build,
    nums: &[u16],
) -> Result<Progress, Fault>
    requires { Spacious p }
    ensures put_deeper { PutDeeper code.entry.bounds.next p result }
    ensures work_unchanged { rows_in work.new ≡ rows_in work.old }
    ensures whole_put { WholePut code.entry build nums.now out.old work.old p out.new work.new result }
{
    let number = code.bounds.next as u32 + p.fresh;
    number_and_line(number, p.lines)?;
    let places = rewrite_parts::row(rows(work), build.value);
    let parts = Placed {
        code,
        places,
        many: places.len(),
        nums,
    };
    let to = rewrite_build::put_numbered(out, p.to, build.named, ValueId(number as u16), parts);
    table::put(work, ROWS + p.fresh as usize, build.named.0);
    Ok(Progress {
        to,
        lines: p.lines + 1,
        fresh: p.fresh + 1,
        ..p
    })
}

// What is wanted of a value: nothing, or its rebuild with those of its parts before it. `path` has a mark for each value, those whose
// rebuild has begun and not ended.
pub fn put_deep(
    out: &mut [u8],
    p: Progress,
    site: Site,
    work: &mut [u16],
    path: &mut [bool],
    wants: Option<Build>,
) -> Result<Progress, Fault>
    requires { Spacious p }
    ensures put_deeper { PutDeeper site.entry.code.bounds.next p result }
    ensures work_unchanged { rows_in work.new ≡ rows_in work.old }
    ensures path_kept { IfOk result (λ q. path.new ≡ path.old) }
    ensures deep_put { DeepPut site.entry path.old wants out.old work.old p out.new work.new result }
{
    let Some(build) = wants else {
        return Ok(p);
    };
    let code = site.code;
    let many = begin(code, work, path, build)?;
    let mut nums = [0u16; MOST_PARTS];
    let mut q = p;
    table::put(path, build.value.0 as usize, true);
    for k in 0..many {
        let place = part_place(work, build.value, k);
        let part = rewrite_wanted::wanted_at(code, code.bytes, place, site.tracked, Asks::Own, k);
        let before = q.fresh;
        q = put_deep(out, q, site, work, path, part)?;
        let number = number_taken(code.bounds.next, before, q.fresh);
        table::put(&mut nums, k as usize, number);
    }
    table::put(path, build.value.0 as usize, false);
    put_whole(out, q, code, work, build, &nums)
}
