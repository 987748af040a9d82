// The values derived from a build, found by the block's copies, and whether one of them is looked into by an index that is
// not known.
#![tactic(auto)]

ghost use Rattle.std.specs.Prelude.{◌≡◌, ◌+◌, ◌≤◌, ◌<◌, ◌&&◌, ◌||◌, ℕ, suc, false, eqb, get_or, length, take};
ghost use Rattle.fold_family.specs.Copies.{any_shape, row_at, firsts_at, meets};
ghost use Rattle.fold_family.specs.Search.{most_turns, row_number, joins_at, Join, Turn, is_open};
ghost use Rattle.fold_family.specs.Search.{FindsFamily, Storing, ClearsMembers, IsAlone, DynamicIndex, MemberIndexed};

use mir::{ValueId, most};

// Where in the table of a block's copies what stands (specs/Copies.antt): a copy takes three numbers, its dest, the shape asked
// for, and the row before it of the same source. A row is one more than the copy's number, 0 for none. (One table of
// numbers, as the laws read it, in which the rows of the values stand too.)
pub const WIDTH: usize = 3;

pub const DEST: usize = 0;

pub const ASKED: usize = 1;

pub const NEXT: usize = 2;

// Behind them stands for each value its last row.
pub const FIRSTS: usize = WIDTH * most::INSTRUCTIONS;

pub const SIZE: usize = FIRSTS + most::VALUES;

// A root of any shape is asked for. (A number and no Option: it stands in that table.)
pub const ANY: u16 = 0;

// The most turns that a search takes: one for each value, and one for each copy of a block.
const TURNS: u16 = (most::VALUES + most::INSTRUCTIONS) as u16;

// Where a search stands: how many members are found, and how many of them are taken; and the copy that is to be looked at next, none
// where a member is to be taken.
#[derive(Clone, Copy)]
pub struct Search {
    pub found: u16,
    pub taken: u16,
    pub copy: Option<u16>,
}

// What a search found: how many members, and the turns that it took.
#[derive(Clone, Copy)]
pub struct Found {
    pub members: u16,
    pub turns: u16,
}

// The shape asked for is the root's, or none is asked for. (Numbers, as the tables of values and copies have them: neither is taken
// apart, and to make an enum of both in order to compare them would be no plainer.)
fn asks(wanted: u16, shape: u8) -> bool
    ensures { result ≡ (eqb wanted any_shape || eqb wanted shape) }
{
    wanted == ANY || wanted == shape as u16
}

// The copy whose row stands at a place of the table, if one does.
fn copy_at(copies: &[u16], at: usize) -> Option<u16>
    ensures { row_number result ≡ get_or copies.now at 0 }
{
    table::number(copies, at).checked_sub(1)
}

// Copy `k` joins where it asks for the root's shape, and its dest is a value that is not marked yet.
fn joins(copies: &[u16], k: u16, shape: u8, marks: &[bool]) -> bool
    ensures { result ≡ joins_at copies.now k shape marks.now }
{
    let at = WIDTH * k as usize;
    let dest = table::place(copies, at + DEST);
    asks(table::number(copies, at + ASKED), shape) && !table::at(marks, dest, true)
}

// Looks at copy `k`, `found` members being found; how many are found then. (The list grows while it is searched, so it is no slice
// of that length.)
fn join(
    copies: &[u16],
    k: u16,
    shape: u8,
    found: u16,
    marks: &mut [bool],
    members: &mut [u16],
) -> u16
    requires { found ≤ most_turns + 1 }
    ensures { Join copies.now k shape found marks.old marks.new members.old members.new result }
{
    if !joins(copies, k, shape, marks) {
        return found;
    }
    let dest = table::number(copies, WIDTH * k as usize + DEST);
    table::put(marks, dest as usize, true);
    table::put(members, found as usize, dest);
    found + 1
}

// One turn of a search: takes a member, or looks at a copy of the member taken last.
fn turn(q: Search, copies: &[u16], shape: u8, marks: &mut [bool], members: &mut [u16]) -> Search
    requires { (q.found ≤ most_turns + 1) × (q.taken ≤ most_turns) }
    ensures { Turn copies.now shape q result marks.old marks.new members.old members.new }
{
    match q.copy {
        None => {
            let v = table::place(members, q.taken as usize);
            Search {
                taken: q.taken + 1,
                copy: copy_at(copies, FIRSTS + v),
                ..q
            }
        }
        Some(k) => {
            let found = join(copies, k, shape, q.found, marks, members);
            Search {
                found,
                copy: copy_at(copies, WIDTH * k as usize + NEXT),
                ..q
            }
        }
    }
}

// A copy is to be looked at, or a member to be taken.
fn is_open(q: Search) -> bool
    ensures { result ≡ is_open q }
{
    q.copy.is_some() || q.taken < q.found
}

// Marks the family of `v`, whose recorded type has the shape `shape`, in `marks`, which are clear, one for each value, and
// lists its members in `members`. The block's copies stand in `copies`.
pub fn family(
    copies: &[u16],
    shape: u8,
    v: ValueId,
    marks: &mut [bool],
    members: &mut [u16],
) -> Found
    ensures { FindsFamily copies.now shape v marks.old marks.new members.old members.new result }
{
    table::put(marks, v.0 as usize, true);
    table::put(members, 0, v.0);
    let mut q = Search {
        found: 1,
        taken: 0,
        copy: None,
    };
    for turns in 0..=TURNS {
        if !is_open(q) {
            return Found {
                members: q.found,
                turns,
            };
        }
        q = turn(q, copies, shape, marks, members);
    }
    Found {
        members: q.found,
        turns: TURNS,
    }
}

// Whether no copy has `v` as its source: it is its whole family then. The other answer is left free. (No function of the pass asks
// for it: of such a value the search takes one turn.)
pub fn is_alone(copies: &[u16], v: ValueId) -> bool
    ensures { IsAlone copies.now v result }
{
    (v.0 as usize) < most::VALUES && table::number(copies, FIRSTS + v.0 as usize) == 0
}

// The `n` members that a search has listed; the whole list where it is shorter. (A list and a number, since the search writes into a
// list of any length that the caller lends, and says how many it wrote.)
pub fn first_members(members: &[u16], n: u16) -> &[u16]
    ensures { result.now ≡ take n members.now }
{
    &members[..members.len().min(n as usize)]
}

// Marks the members, or clears their marks.
pub fn mark_members(members: &[u16], on: bool, marks: &mut [bool])
    ensures { Storing members.now (length members.now) on marks.old marks.new }
{
    for v in members {
        table::put(marks, *v as usize, on);
    }
}

// Clears the marks of the `n` members. (A list and a number, here and in what asks of `n` members, since more is promised than of a slice: past
// the list a member is value 0, as reads of tables give it.)
pub fn unmark(members: &[u16], n: u16, marks: &mut [bool])
    ensures { ClearsMembers members.now n marks.old marks.new }
{
    mark_members(first_members(members, n), false, marks);
    if members.len() < n as usize {
        table::put(marks, 0, false);
    }
}

// Whether one of the `n` members of a family is looked into by an index that is not known, where `dynamic` are the marks that
// the scan of the block has set.
pub fn member_indexed(members: &[u16], n: u16, dynamic: &[bool]) -> bool
    ensures { MemberIndexed members.now n dynamic.now result }
{
    (0..n).any(|k| table::flag(dynamic, table::place(members, k as usize)))
}

// Whether a member of the family that `marks` has is looked into by an index that is not known, where `dynamic` are
// the marks that the scan of the block has set. (The pass goes by the list of its members.)
pub fn dynamic_index(marks: &[bool], dynamic: &[bool]) -> bool
    ensures met { result ≡ meets marks.now dynamic.now }
    ensures indexed { DynamicIndex marks.now dynamic.now result }
{
    marks.iter().zip(dynamic).any(|(a, b)| *a && *b)
}
