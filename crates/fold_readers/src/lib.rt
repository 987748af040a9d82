// Which block reads each value: one table of readers stands for all blocks.
#![tactic(auto)]

pub mod number;
#[cfg(test)]
mod tests;

ghost use Rattle.std.specs.Prelude.{◌≡◌, List, ◌&&◌, ℕ, ◌<◌, length, get_or};
ghost use Rattle.mir.specs.declared.ValueId.{ValueId as DeclaredValueId};
ghost use Rattle.mir.specs.Syntax.{Instruction, Block};
ghost use Rattle.bytes_field.specs.declared.Bounds.{Bounds};
ghost use Rattle.bytes_index.specs.Table.{ReadsIn};
ghost use Rattle.bytes_index.specs.Code.{InstructionIn, BlockIn, CodeIn};
ghost use Rattle.fold_family.specs.Copies.{meets};
ghost use Rattle.fold_readers.specs.Readers.{block_limit, readers_number, seen_by, note_reader, read_via, read_instruction};
ghost use Rattle.fold_readers.specs.Readers.{read_block, read_blocks, foreign, foreigners, MemberAbroad, ReadElsewhere};

use bytes_index::{Code, Slots};
use mir::kind::Kind;
use mir::{BlockId, ValueId};
pub use number::BlockNumber;

// The table has a number for each value: 0 where no block reads it, k + 1 where block k alone does, and this where several do. (One byte
// for each value, as the laws read numbers: with a table of `Readers` each clause would speak of its numbers by a `map`.)
const SEVERAL: u8 = 255;

// Which blocks read a value.
#[derive(Clone, Copy)]
pub enum Readers {
    None,
    One(u8),
    Several,
}

// Blocks below this have a number in the table.
const BLOCKS: u16 = 254;

// What a value's number in the table says.
impl From<u8> for Readers {
    ghost from_gives = { λ x r. readers_number r ≡ x };

    fn from(x: u8) -> Readers {
        match x {
            0 => Readers::None,
            SEVERAL => Readers::Several,
            _ => Readers::One(x - 1),
        }
    }
}

// A value's number in the table, behind a read in block `own`.
fn seen_by(own: BlockNumber, x: u8) -> u8
    ensures { result ≡ seen_by own.number x }
{
    match Readers::from(x) {
        Readers::None => own.number + 1,
        Readers::One(k) if k == own.number => x,
        _ => SEVERAL,
    }
}

// Notes a read of `v` in block `own`.
fn note_reader(own: BlockNumber, readers: &mut [u8], v: ValueId)
    ensures { readers.new ≡ note_reader own.number readers.old v.0 }
{
    let i = v.0 as usize;
    table::put(readers, i, seen_by(own, bytes_wire::byte_at(readers, i)));
}

// Notes the reads of a slot as reads in block `own`.
fn note_reads(own: BlockNumber, facts: &[u16], slot: u16, readers: &mut [u8])
    ensures { (vs : List DeclaredValueId) → ReadsIn facts.now slot vs → readers.new ≡ read_via own.number readers.old vs }
{
    let n = bytes_index::read_count(facts, slot);
    for k in 0..n {
        note_reader(own, readers, bytes_index::read(facts, slot, k));
    }
}

// Notes the reads of a slot's instruction; a Debug's do not count.
fn note_instruction(own: BlockNumber, facts: &[u16], slot: u16, readers: &mut [u8])
    ensures { (b : Bounds) (s : List ℕ) (i : Instruction) → InstructionIn b s facts.now slot i
        → readers.new ≡ read_instruction own.number readers.old i.kind }
{
    if let Some(Kind::Debug) = bytes_index::instruction_kind(facts, slot) {
        return;
    }
    note_reads(own, facts, slot, readers);
}

// Notes the reads of a block, whose instructions stand in these slots, and its terminator behind them.
fn note_block(own: BlockNumber, facts: &[u16], slots: Slots, readers: &mut [u8])
    ensures { (b : Bounds) (s : List ℕ) (x : Block) → BlockIn b s facts.now slots.first x → length x.instructions ≡ slots.count
        → readers.new ≡ read_block own.number readers.old x }
{
    for k in 0..slots.count {
        note_instruction(own, facts, slots.first + k, readers);
    }
    note_reads(own, facts, slots.end(), readers);
}

// A block's number as the table has it; 0 for one past those that it has room for, which no accepted routine has. (No From: past
// the room it answers 0.)
pub fn block_number(k: BlockId) -> BlockNumber
    ensures { k.0 < block_limit → result.number ≡ k.0 }
{
    if k.0 < BLOCKS {
        return BlockNumber { number: k.0 as u8 };
    }
    BlockNumber { number: 0 }
}

// Notes in `readers`, for each value, which of the routine's blocks reads it.
pub fn note_readers(code: Code, readers: &mut [u8])
    ensures { (b : Bounds) (s : List ℕ) (ks : List Block) → CodeIn b s code.entry.facts.now ks → length ks ≡ code.entry.bounds.blocks
        → code.entry.bounds.blocks < block_limit → readers.new ≡ read_blocks 0 readers.old ks }
{
    for k in 0..code.bounds.blocks {
        let k = BlockId(k);
        let slots = bytes_index::block_slots(code.facts, k);
        note_block(block_number(k), code.facts, slots, readers);
    }
}

// The number says that another block than `own` reads the value.
pub fn is_foreign(own: BlockNumber, x: u8) -> bool
    ensures { result ≡ foreign own.number x }
{
    match Readers::from(x) {
        Readers::None => false,
        Readers::One(k) => k != own.number,
        Readers::Several => true,
    }
}

// Whether some block other than `own` reads one of the members of a family, which are the whole list, of any length. (For callers outside the
// pass, whose list may be longer than a `u16` says; the pass goes by `listed_abroad`.)
pub fn member_abroad(members: &[u16], own: BlockNumber, readers: &[u8]) -> bool
    ensures { MemberAbroad members.now (length members.now) own.number readers.now result }
{
    members.iter().any(|v| is_foreign(own, bytes_wire::byte_at(readers, *v as usize)))
}

// Whether some block other than `own` reads one of the `n` members of a family; past the list a member is value 0.
pub fn listed_abroad(members: &[u16], n: u16, own: BlockNumber, readers: &[u8]) -> bool
    ensures { MemberAbroad members.now n own.number readers.now result }
{
    (0..n).any(|k| is_foreign(
        own,
        bytes_wire::byte_at(readers, table::place(members, k as usize)),
    ))
}

// Whether some block other than `own` reads one of the marked values. (The pass goes by the list of a family's members.)
pub fn read_elsewhere(marks: &[bool], own: BlockNumber, readers: &[u8]) -> bool
    ensures met { result ≡ meets marks.now (foreigners own.number readers.now) }
    ensures elsewhere { ReadElsewhere marks.now own.number readers.now result }
{
    marks
        .iter()
        .zip(readers)
        .any(|(m, x)| *m && is_foreign(own, *x))
}
