// The table of facts that the reader leaves of a routine (specs/Table.antt says what stands where), and lookups in it.
#![tactic(auto)]

pub mod code;
pub mod slots;

ghost use Rattle.std.specs.Prelude.{◌≡◌, List, ℕ, ◌+◌, ◌*◌, ◌<◌, length, get_or};
ghost use Rattle.mir.specs.Kind.{NamesKind};
ghost use Rattle.mir.specs.Syntax.{Block};
ghost use Rattle.bytes_field.specs.declared.Bounds.{Bounds};
ghost use Rattle.bytes_index.specs.Table.{recorded_in, blocks_in, starts_in, block_set};
ghost use Rattle.bytes_index.specs.Table.{columns_below, row_at, row_number, place_in, end_in, kind_in, read_count, read_in};
ghost use Rattle.bytes_index.specs.Code.{no_block, CodeIn, LastSlot, SlotsOf};
ghost use Rattle.table.specs.Number.{numbers_below};

pub use code::{Code, Typing};
use mir::kind::Kind;
use mir::{BlockId, ValueId, most};
pub use slots::Slots;

// (One table of u16 in the fixed memory of the pass, with 0 for no type, as the laws read it. The readers take a slice that is so long at
// least, and no array: a caller may lend a longer one.)
// Where the sections begin, and how long the table is.
pub const RECORDED: usize = 65;

pub const BLOCKS: usize = 321;

pub const STARTS: usize = 354;

pub const ROWS: usize = 387;

pub const SIZE: usize = 6147;

// How long a slot's row is, and what stands where in it: from which place to which, the kind, how many reads, the reads.
pub const WIDTH: usize = 20;

pub const END: usize = 1;

pub const KIND: usize = 2;

pub const COUNT: usize = 3;

pub const READS: usize = 4;

// The recorded types, by value: 0 for none, else one more than the type's number.
pub fn recorded(facts: &[u16]) -> &[u16]
    ensures { result.now ≡ recorded_in facts.now }
{
    table::behind(facts, RECORDED)
}

// The places of the blocks, and the place behind the last.
pub fn blocks(facts: &[u16]) -> &[u16]
    ensures { result.now ≡ blocks_in facts.now }
{
    table::behind(facts, BLOCKS)
}

// Stores that block `k` begins at a place, behind `total` instructions; for k the number of blocks, where the last ends.
pub fn set_block(facts: &mut [u16], k: BlockId, place: usize, total: u16)
    requires { total + k.0 < numbers_below }
    ensures { facts.new ≡ block_set facts.old k.0 place total }
{
    table::set_place(facts, BLOCKS + k.0 as usize, place);
    table::put(facts, STARTS + k.0 as usize, total + k.0);
}

// Where number `k` of a slot's row stands.
pub fn row_place(slot: u16, k: usize) -> usize
    requires { k < columns_below }
    ensures { result ≡ row_at slot + k }
{
    ROWS + WIDTH * slot as usize + k
}

// The place of a slot's instruction or terminator. (`table::place` promises no bound.)
pub fn place(facts: &[u16], slot: u16) -> usize
    ensures { (result ≡ place_in facts.now slot) × (result < numbers_below) }
{
    table::number(facts, row_place(slot, 0)) as usize
}

// The place behind it.
pub fn end(facts: &[u16], slot: u16) -> usize
    ensures { (result ≡ end_in facts.now slot) × (result < numbers_below) }
{
    table::number(facts, row_place(slot, END)) as usize
}

// The kind that stands at a place of the table.
pub fn kind_at(facts: &[u16], at: usize) -> Option<Kind>
    ensures { NamesKind (get_or facts.now at 0) result }
{
    Kind::try_from(table::number(facts, at)).ok()
}

// The number that stands for an instruction's kind. (For callers outside the pass, which asks for the kind,
// `instruction_kind`.)
pub fn kind(facts: &[u16], slot: u16) -> u16
    ensures { result ≡ kind_in facts.now slot }
{
    table::number(facts, row_place(slot, KIND))
}

// An instruction's kind.
pub fn instruction_kind(facts: &[u16], slot: u16) -> Option<Kind>
    ensures { NamesKind (kind_in facts.now slot) result }
{
    kind_at(facts, row_place(slot, KIND))
}

// How many values a slot's instruction or terminator reads.
pub fn read_count(facts: &[u16], slot: u16) -> u16
    ensures { result ≡ read_count facts.now slot }
{
    table::number(facts, row_place(slot, COUNT))
}

// Value `k` of those.
pub fn read(facts: &[u16], slot: u16, k: u16) -> ValueId
    ensures { result.0 ≡ read_in facts.now slot k }
{
    ValueId(table::number(facts, row_place(slot, READS + k as usize)))
}

// The slot of the first instruction of block `k`; for k the number of blocks, the slot behind the last.
pub fn first_slot(facts: &[u16], k: BlockId) -> u16
    ensures { result ≡ get_or (starts_in facts.now) k.0 0 }
{
    table::number(facts, STARTS + k.0 as usize)
}

// How many instructions block `k` has.
pub fn instruction_count(facts: &[u16], k: BlockId) -> u16
    ensures { (b : Bounds) (s : List ℕ) (ks : List Block)
        → CodeIn b s facts.now ks → k.0 < length ks → result ≡ length (get_or ks k.0 no_block).instructions }
{
    last_slot(facts, k).saturating_sub(first_slot(facts, k))
}

// The slot of block `k`'s terminator: behind those of its instructions.
pub fn last_slot(facts: &[u16], k: BlockId) -> u16
    ensures { LastSlot facts.now k.0 result }
{
    table::number(facts, STARTS + 1 + k.0 as usize).saturating_sub(1)
}

// The slots of the instructions of block `k`; none where the table has more than there can be.
pub fn block_slots(facts: &[u16], k: BlockId) -> Slots
    ensures { SlotsOf facts.now k.0 result }
{
    let first = first_slot(facts, k);
    let count = instruction_count(facts, k);
    if most::SLOTS < first as usize + count as usize {
        return Slots { first: 0, count: 0 };
    }
    Slots { first, count }
}
