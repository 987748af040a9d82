// What the program `families` prints of bytes: a line for each build of a routine, or the refusal.
// (The text is another part of the caller's at each call, and comes from the heap: how long it is stays a clause.)
#![tactic(auto)]

ghost use Rattle.std.specs.Prelude.{◌*◌, ◌≤◌, length};
ghost use Rattle.mir.specs.Most.{most_values};
ghost use Rattle.bytes_sections.specs.Decode.{mosts, whole_of};
ghost use Rattle.text.specs.Written.{Written};
ghost use Rattle.text_lines.specs.Lines.{numbers_line};
ghost use Rattle.pass_input.specs.Accepted.{Accepted};
ghost use Rattle.pass_families.specs.Widths.{line_width, longest_text};
ghost use Rattle.pass_families.specs.Lines.{marked_from, families_of};
ghost use Rattle.pass_families.specs.Shown.{found_numbers, PutsBuild, PutsOne, PutsAll, PutsBlock, PutsBlocks, PutsRoutine};

use bytes_index::{Code, Slots};
use fold::{Edition, Settings};
use fold_looked::{BuildFamily, Tables};
use mir::{BlockId, most};

// The numbers of a line: block, instruction, dest, how many members the family has, how many turns the search for them took, and 1
// where a member is looked into by an index that is not known, else 0. The members can stand behind.
const NUMBERS: usize = 6;

const LINE: usize = NUMBERS + most::VALUES;

// No text is longer: a line for each slot, with 21 characters for each number.
pub const LONGEST: usize = 1584576;

// Any settings: which types are eligible does not matter here, and a family is the same in both editions.
const ANY: Settings = Settings {
    tuples: true,
    structs: true,
    most: 16,
    edition: Edition::First,
};

// Where an instruction stands: its block, its number there, and its slot.
#[derive(Clone, Copy)]
struct Site {
    block: u16,
    instruction: u16,
    slot: u16,
}

// Lists the marked values at the head of a line, the least first; how many they are.
fn list_members(family: &[bool], line: &mut [u64]) -> usize
    requires { length family.now ≤ length line.old }
    ensures listed { Written (marked_from 0 family.now) 0 line.old line.new result }
    ensures upper_bound { result ≤ length family.now }
{
    let mut n = 0;
    for (v, marked) in family.iter().enumerate() {
        if *marked {
            line[n] = v as u64;
            n = n + 1;
        }
    }
    n
}

// The line of what is found of a build, whose family has these marks; where `named`, with its members. Answers its length.
fn put_line(at: Site, build: BuildFamily, family: &[bool], named: bool, text: &mut [u8]) -> usize
    requires { length family.now ≤ most_values }
    ensures written { Written (numbers_line (found_numbers named at.block at.instruction build family.now)) 0 text.old text.new result }
    ensures upper_bound { result ≤ line_width }
{
    let numbers: [u64; NUMBERS] = [
        at.block as u64,
        at.instruction as u64,
        build.dest.0 as u64,
        build.found.members as u64,
        build.found.turns as u64,
        build.looked as u64,
    ];
    if !named {
        return text_lines::numbers_line(text, &numbers);
    }
    let mut line: [u64; LINE] = [0; LINE];
    line[..NUMBERS].copy_from_slice(&numbers);
    let many = list_members(family, &mut line[NUMBERS..]);
    text_lines::numbers_line(text, &line[..NUMBERS + many])
}

// A block as its lines are put: its code, the tables that its families are found by, and whether members are named.
#[derive(Clone, Copy)]
struct View<'a, 'b> {
    code: Code<'a>,
    tables: Tables<'b>,
    named: bool,
}

impl<'a, 'b> View<'a, 'b> {
    // The line of the build in a slot.
    fn put_build(self, at: Site, text: &mut [u8]) -> usize
        ensures written { PutsBuild self.entry.named self.entry.code at.block at.instruction at.slot self.entry.tables
            text.old text.new result }
        ensures upper_bound { result ≤ line_width }
    {
        let mut family: [bool; most::VALUES] = [false; most::VALUES];
        let mut members: [u16; most::VALUES] = [0; most::VALUES];
        let marks = &mut family[..self.tables.dynamic.len()];
        let build = fold_looked::find_build(self.code, at.slot, self.tables, marks, &mut members);
        put_line(at, build, marks, self.named, text)
    }

    // The line of an instruction that is a build; nothing of any other.
    fn put_one(self, at: Site, text: &mut [u8]) -> usize
        ensures written { PutsOne self.entry.named self.entry.code at.block at.instruction at.slot self.entry.tables
            text.old text.new result }
        ensures upper_bound { result ≤ line_width }
    {
        let Some(kind) = bytes_index::instruction_kind(self.code.facts, at.slot) else {
            return 0;
        };
        if !kind.is_build() {
            return 0;
        }
        self.put_build(at, text)
    }

    // The lines of the block, whose number is `k`.
    fn put_all(self, k: BlockId, slots: Slots, text: &mut [u8]) -> usize
        requires { line_width * slots.count ≤ length text.old }
        ensures written { PutsAll self.entry.named self.entry.code k.0 slots self.entry.tables text.old text.new result }
        ensures upper_bound { result ≤ line_width * slots.count }
    {
        let mut to = 0;
        for j in 0..slots.count {
            let at = Site {
                block: k.0,
                instruction: j,
                slot: slots.first + j,
            };
            to = to + self.put_one(at, &mut text[to..]);
        }
        to
    }
}

// The lines of block `k`, which is scanned for its copies first. (How many values there are is known of accepted bytes alone, whose
// bounds have a type that says no more of them.)
fn put_block(
    code: Code,
    k: BlockId,
    slots: Slots,
    shapes: &[u8],
    named: bool,
    text: &mut [u8],
) -> usize
    requires { (code.bounds.next ≤ most_values) × (line_width * slots.count ≤ length text.old) }
    ensures written { PutsBlock named code.entry k.0 slots shapes.now text.old text.new result }
    ensures upper_bound { result ≤ line_width * slots.count }
{
    let mut copies: [u16; fold_family::SIZE] = [0; fold_family::SIZE];
    let mut marks: [bool; most::VALUES] = [false; most::VALUES];
    let dynamic = &mut marks[..code.bounds.next as usize];
    fold_copies::scan_copies(code, slots.first, slots.count, &mut copies, dynamic);
    let tables = Tables {
        shapes,
        copies: &copies,
        dynamic,
    };
    let view = View {
        code,
        tables,
        named,
    };
    view.put_all(k, slots, text)
}

// The lines of all blocks.
fn put_blocks(code: Code, shapes: &[u8], named: bool, text: &mut [u8]) -> usize
    requires { Accepted code.bytes.now code.facts.now code.bounds × (longest_text ≤ length text.old) }
    ensures written { PutsBlocks named code.entry shapes.now text.old text.new result }
    ensures upper_bound { result ≤ longest_text }
{
    let mut to = 0;
    for k in 0..code.bounds.blocks {
        let slots = bytes_index::block_slots(code.facts, BlockId(k));
        to = to + put_block(code, BlockId(k), slots, shapes, named, &mut text[to..]);
    }
    to
}

// The lines of an accepted routine, the shapes of whose values' recorded types are found first.
fn put_routine(code: Code, named: bool, text: &mut [u8]) -> usize
    requires { Accepted code.bytes.now code.facts.now code.bounds × (longest_text ≤ length text.old) }
    ensures written { PutsRoutine named code.entry text.old text.new result }
    ensures upper_bound { result ≤ longest_text }
{
    let mut shapes: [u8; most::VALUES] = [0; most::VALUES];
    let mut eligible: [bool; most::VALUES] = [false; most::VALUES];
    fold_shapes::value_shapes(code.typing(), ANY, &mut shapes, &mut eligible);
    put_blocks(code, &shapes, named, text)
}

// Writes what is to be printed of some bytes, where `named` each line with the members of its family, and returns its length.
pub fn families_text(s: &[u8], named: bool, text: &mut [u8]) -> usize
    requires { longest_text ≤ length text.old }
    ensures written { Written (families_of named (whole_of mosts s.now)) 0 text.old text.new result }
    ensures upper_bound { result ≤ longest_text }
{
    let mut facts: [u16; bytes_index::SIZE] = [0; bytes_index::SIZE];
    match bytes_read::read_routine(s, &mut facts) {
        Ok(bounds) => {
            let code = Code {
                bytes: s,
                bounds,
                facts: &facts,
            };
            put_routine(code, named, text)
        }
        Err(e) => text_lines::checked_line(
            text,
            bytes_wire::cause_number(e.cause) as u64,
            e.offset as u64,
        ),
    }
}
