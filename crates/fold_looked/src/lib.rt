// Which arrays of a block are looked into by an index that is not known: those of whose family a member is.
#![tactic(auto)]

pub mod tables;

ghost use Rattle.std.specs.Prelude.{◌≡◌, false};
ghost use Rattle.fold_looked.specs.Looked.{NonePasses, NoneArrays, FindsBuild, LooksAt, LooksAll, FillsLooked};

use bytes_index::{Code, Slots};
use fold_family::Found;
use mir::kind::Kind;
use mir::{ValueId, most};
pub use tables::Tables;

// Whether a slot of those from one to another holds an instruction of a kind that passes a test. Only the answer that none does
// says something: the other is left free, as the slots are looked at then, and one answer too many costs time alone.
// (That the test can be called is a fact of each closure: the bound Fn says nothing of it.)
pub fn any_kind<F: Fn(Kind) -> bool>(facts: &[u16], from: u16, to: u16, test: F) -> bool
    requires { F.IsAlwaysCallable test }
    ensures { result ≡ false → NonePasses (λ kind. F.post test kind false) facts.now from to }
{
    (from..to).any(|slot| bytes_index::instruction_kind(facts, slot).is_some_and(|kind| test(kind)))
}

// Whether one of those slots holds a MakeFixedArray.
fn any_array(facts: &[u16], from: u16, to: u16) -> bool
    ensures { result ≡ false → NoneArrays facts.now from to }
{
    any_kind(facts, from, to, |kind| kind == Kind::MakeFixedArray)
}

// What is found of a build: its dest, its family, and whether a member of that is looked into by an index that is not known.
#[derive(Clone, Copy)]
pub struct BuildFamily {
    pub dest: ValueId,
    pub found: Found,
    pub looked: bool,
}

// Finds that of the build in a slot: `family` is clear, one for each value, and gets the family's marks; `members` lists them.
pub fn find_build(
    code: Code,
    slot: u16,
    tables: Tables,
    family: &mut [bool],
    members: &mut [u16],
) -> BuildFamily
    ensures { FindsBuild code.entry slot tables.entry family.old family.new members.old members.new result }
{
    let dest = fold_scan::dest(code, slot);
    let shape = bytes_wire::byte_at(tables.shapes, dest.0 as usize);
    let found = fold_family::family(tables.copies, shape, dest, family, members);
    let looked = fold_family::member_indexed(members, found.members, tables.dynamic);
    BuildFamily {
        dest,
        found,
        looked,
    }
}

// Whether the build in a slot is an array of whose family a member is looked into so; the marks of `family` are clear, before and after.
fn look(code: Code, slot: u16, tables: Tables, family: &mut [bool], members: &mut [u16]) -> bool
    ensures { LooksAt code.entry slot tables.entry family.old family.new members.old result }
{
    if bytes_index::instruction_kind(code.facts, slot) != Some(Kind::MakeFixedArray) {
        return false;
    }
    let build = find_build(code, slot, tables, family, members);
    fold_family::unmark(members, build.found.members, family);
    build.looked
}

// Gives each of a block's instructions the flag whether it is an array that is looked into so.
fn look_all(code: Code, slots: Slots, tables: Tables, family: &mut [bool], looked: &mut [bool])
    ensures { LooksAll code.entry slots tables.entry.shapes.now tables.entry.copies.now tables.entry.dynamic.now
        family.old looked.old looked.new }
{
    let mut members: [u16; most::VALUES] = [0; most::VALUES];
    for j in 0..slots.count {
        let yes = look(code, slots.first + j, tables, family, &mut members);
        table::put(looked, j as usize, yes);
    }
}

// Scans a block for its copies first.
fn look_copies(code: Code, slots: Slots, shapes: &[u8], looked: &mut [bool])
    ensures { FillsLooked code.entry slots shapes.now looked.old looked.new }
{
    let n = code.bounds.next as usize;
    if most::VALUES < n {
        return;
    }
    let mut copies: [u16; fold_family::SIZE] = [0; fold_family::SIZE];
    let mut dynamic: [bool; most::VALUES] = [false; most::VALUES];
    let dynamic = &mut dynamic[..n];
    fold_copies::scan_copies(code, slots.first, slots.count, &mut copies, dynamic);
    let tables = Tables {
        shapes,
        copies: &copies,
        dynamic,
    };
    let mut family: [bool; most::VALUES] = [false; most::VALUES];
    look_all(code, slots, tables, &mut family[..n], looked);
}

// Gives each array that a block builds the flag, at the number of its instruction, whether it is looked into by an index that is
// not known. The block is scanned only where it builds an array.
pub fn fill_looked(code: Code, slots: Slots, shapes: &[u8], looked: &mut [bool])
    ensures { FillsLooked code.entry slots shapes.now looked.old looked.new }
{
    if any_array(code.facts, slots.first, slots.end()) {
        look_copies(code, slots, shapes, looked);
    }
}
