// The parts of tracked values: rows of places of the input, in tables that the caller lends. `tracked` has a mark for
// each value that is tracked; `rows` says at its number where its row begins, behind these: the number of its parts, then
// the place of each. No row changes: a changed value gets a new one. (One table of numbers and no rows of their
// own: the laws, `Rep` and `rows_in`, read one table of numbers.)
#![tactic(auto)]

pub mod listed;

ghost use Rattle.std.specs.Prelude.{◌≡◌, List, true, ℕ, ◌+◌, ◌≤◌, ◌<◌, length, set, IfSome};
ghost use Rattle.mir.specs.Lookup.{is_some};
ghost use Rattle.rewrite.specs.State.{AggStates};
ghost use Rattle.rewrite_parts.specs.Rows.{most_parts, row_most, used_below, Addressable, Rep};
ghost use Rattle.rewrite_parts.specs.Filled.{PartsStand, PartsCounted, FindsPart, Cleared, Grown, PlacesPut, RowCopied};
ghost use Rattle.rewrite_parts.specs.Filled.{Shared, ValuesTracked, Replaced, FindsInit, NamesPut, NamesTracked};

pub use listed::Listed;
use mir::{NameId, ValueId, most};

// In the own fields of a build the number of its parts stands behind its dest, and the parts behind it.
pub const COUNT: usize = bytes_field::ID;

// The most parts of a value.
const MOST_PARTS: u16 = 16;

// The first place of a row, behind a number for each value, and how many numbers of a working table are for the rows: one more than
// its parts for each instruction of a block.
pub const ROWS_FROM: usize = most::VALUES;

pub const ROWS: usize = ROWS_FROM + most::INSTRUCTIONS * (MOST_PARTS as usize + 1);

// Both tables, where they are only read. (Where they are changed they are parameters of their own: of a struct with a `&mut` to each,
// every function would promise by two clauses more that it still has both. So is how much of the rows is used, below a bound: a new
// row may end past it, so that a type of its own would be made anew at each step.)
#[derive(Clone, Copy)]
pub struct Parts<'a> {
    pub tracked: &'a [bool],
    pub rows: &'a [u16],
}

// Whether a value is tracked.
pub fn tracked(tracked: &[bool], v: ValueId) -> bool
    ensures { (next : ℕ) (s rows : List ℕ) (used : ℕ) (S : AggStates)
        → Rep next s tracked.now rows used S → result ≡ is_some (S v.0) }
{
    table::flag(tracked, v.0 as usize)
}

// The places of the parts of a tracked value.
pub fn row(rows: &[u16], v: ValueId) -> &[u16]
    ensures upper_bound { length result.now ≤ most_parts }
    ensures parts_stand { PartsStand rows.now v result.now }
{
    let at = table::place(rows, v.0 as usize);
    let n = table::number(rows, at);
    let end = at + 1 + n as usize;
    if MOST_PARTS < n || rows.len() < end {
        return &[];
    }
    &rows[at + 1..end]
}

// The number of parts of a tracked value.
pub fn part_count(rows: &[u16], v: ValueId) -> u16
    ensures upper_bound { result ≤ most_parts }
    ensures parts_counted { PartsCounted rows.now v result }
{
    row(rows, v).len() as u16
}

// Where part `k` of a value stands, if the value is tracked and has that part.
pub fn find_part(parts: Parts, v: ValueId, k: u32) -> Option<usize>
    ensures { FindsPart parts.entry v k result }
{
    if !tracked(parts.tracked, v) {
        return None;
    }
    let place = row(parts.rows, v).get(k as usize)?;
    Some(*place as usize)
}

// Nothing is tracked.
pub fn clear(tracked: &mut [bool])
    ensures { Cleared tracked.old tracked.new }
{
    tracked.fill(false);
}

// The dest is tracked, and its row begins at a place.
fn set_row(tracked: &mut [bool], rows: &mut [u16], d: ValueId, first: u16)
    ensures marked { tracked.new ≡ set tracked.old d.0 true }
    ensures placed { rows.new ≡ set rows.old d.0 first }
{
    table::put(tracked, d.0 as usize, true);
    table::put(rows, d.0 as usize, first);
}

// The dest has the parts of another value: its row.
pub fn share(tracked: &mut [bool], rows: &mut [u16], d: ValueId, v: ValueId)
    ensures { Shared d v tracked.old rows.old tracked.new rows.new }
{
    let first = table::number(rows, v.0 as usize);
    set_row(tracked, rows, d, first);
}

// Gives the rows, from `to` on, the places of values, `before` bytes before each.
fn put_places(values: Listed, before: u8, rows: &mut [u16], to: usize)
    requires { Addressable to }
    ensures grown { Grown rows.old to rows.new }
    ensures places_put { PlacesPut values.entry before rows.old to rows.new }
{
    let mut here = values.at;
    for i in 0..values.count {
        let place = here + before as usize;
        table::set_place(rows, to + i as usize, place);
        here = bytes_operands::value_end(values.bytes, place);
    }
}

// The dest has a new row: values, `before` bytes before each; how much of the rows is used then. (More values than a row has parts,
// which no accepted build has, leave all as it was.)
pub fn track_values(
    tracked: &mut [bool],
    rows: &mut [u16],
    used: usize,
    d: ValueId,
    values: Listed,
    before: u8,
) -> usize
    requires { used < used_below }
    ensures upper_bound { result ≤ used + row_most }
    ensures values_tracked { ValuesTracked d values.entry before tracked.old rows.old used
        tracked.new rows.new result }
{
    let n = values.count;
    if MOST_PARTS < n as u16 {
        return used;
    }
    table::put(rows, used, n as u16);
    put_places(values, before, rows, used + 1);
    set_row(tracked, rows, d, used as u16);
    used + 1 + n as usize
}

// Copies `n` places within the rows. (One by one: by `copy_within` or `copy_from_slice` the archive would ask its host for `memmove`.)
fn copy_row(rows: &mut [u16], from: usize, to: usize, n: u16)
    requires { Addressable to × Addressable from }
    ensures grown { Grown rows.old to rows.new }
    ensures row_copied { RowCopied from to n rows.old rows.new }
{
    for i in 0..n {
        let place = table::number(rows, from + i as usize);
        table::put(rows, to + i as usize, place);
    }
}

// The dest has a new row: another value's, with part `k` at another place; how much of the rows is used then. Where it has no such part
// all is left as it was.
pub fn replace(
    tracked: &mut [bool],
    rows: &mut [u16],
    used: usize,
    d: ValueId,
    v: ValueId,
    k: u32,
    place: usize,
) -> usize
    requires { used < used_below }
    ensures upper_bound { result ≤ used + row_most }
    ensures replaced { Replaced d v k place tracked.old rows.old used tracked.new rows.new result }
{
    let n = part_count(rows, v);
    if n as u32 <= k {
        return used;
    }
    copy_row(rows, table::place(rows, v.0 as usize), used, n + 1);
    table::set_place(rows, used + 1 + k as usize, place);
    set_row(tracked, rows, d, used as u16);
    used + 1 + n as usize
}

// The place of the value of a name's first init.
pub fn find_init(inits: Listed, name: NameId) -> Option<usize>
    ensures { FindsInit inits.entry name result }
{
    let mut here = inits.at;
    for i in 0..inits.count {
        let place = here + bytes_field::ID;
        if bytes_wire::u16_at(inits.bytes, here) == name.0 {
            return Some(place);
        }
        here = bytes_operands::value_end(inits.bytes, place);
    }
    None
}

// Gives the rows, from `to` on, the places of the values of a type's names; whether each is given one.
fn put_named(inits: Listed, names: Listed, rows: &mut [u16], to: usize) -> bool
    requires { Addressable to }
    ensures grown { Grown rows.old to rows.new }
    ensures names_put { NamesPut inits.entry names.entry rows.old to rows.new result }
{
    for i in 0..names.count {
        let name = bytes_before::name_at(names.bytes, names.at, i);
        match find_init(inits, name) {
            None => return false,
            Some(place) => table::set_place(rows, to + i as usize, place),
        }
    }
    true
}

// The dest has a new row: the values of a struct build's inits in the order of its type's names, where each is given; how
// much of the rows is used then. Where one is missing nothing is tracked; what was written then stands behind the rows in use.
pub fn track_named(
    tracked: &mut [bool],
    rows: &mut [u16],
    used: usize,
    d: ValueId,
    inits: Listed,
    names: Listed,
) -> Option<usize>
    requires { used < used_below }
    ensures used_bound { IfSome result (λ end. end ≤ used + row_most) }
    ensures names_tracked { NamesTracked d inits.entry names.entry tracked.old rows.old used
        tracked.new rows.new result }
{
    let m = names.count;
    if MOST_PARTS < m as u16 {
        return None;
    }
    table::put(rows, used, m as u16);
    if !put_named(inits, names, rows, used + 1) {
        return None;
    }
    set_row(tracked, rows, d, used as u16);
    Some(used + 1 + m as usize)
}
