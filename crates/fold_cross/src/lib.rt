// Aggregates that are used across blocks: a build's family is, with all its members, where another block reads one.
#![tactic(auto)]

pub mod cross_facts;

ghost use Rattle.std.specs.Prelude.{◌≡◌, List, false, ◌<◌, ◌≤◌, length, get_or, replicate};
ghost use Rattle.mir.specs.Syntax.{Instruction, Block};
ghost use Rattle.bytes_index.specs.Code.{no_block, InstructionIn, InstructionsIn};
ghost use Rattle.mir.specs.Lookup.{Types};
ghost use Rattle.mir.specs.Most.{most_values};
ghost use Rattle.fold.specs.Family.{cross_blocks};
ghost use Rattle.fold_family.specs.Copies.{copies as copies_of, RowsAt};
ghost use Rattle.fold_cross.specs.Cross.{Built, IdleAll, cross_block, MembersCrossed, FamilyRead, Crossed, CrossMarks};

use bytes_index::{Code, Slots};
pub use cross_facts::CrossFacts;
use fold_readers::BlockNumber;
use mir::{BlockId, ValueId, most};

// The dest of the build in a slot, where its type is eligible.
fn eligible_build(code: Code, slot: u16, eligible: &[bool]) -> Option<ValueId>
    ensures { (i : Instruction) → InstructionIn code.entry.bounds code.entry.bytes.now code.entry.facts.now slot i
        → Built eligible.now code.entry.bounds.next result i.kind }
{
    let kind = bytes_index::instruction_kind(code.facts, slot)?;
    if !kind.is_build() {
        return None;
    }
    let own = bytes_operands::own_fields(code.instruction(slot));
    let dest = bytes_operands::dest(own);
    table::flag(eligible, dest.0 as usize).then_some(dest)
}

// Whether a block, whose instructions stand in these slots, has such a build. Only the answer that it has none says something: the
// other is left free, as one too many costs time alone.
fn has_build(code: Code, slots: Slots, eligible: &[bool]) -> bool
    ensures { result ≡ false → (is : List Instruction)
        → InstructionsIn code.entry.bounds code.entry.bytes.now code.entry.facts.now slots.first is
        → length is ≡ slots.count → IdleAll eligible.now code.entry.bounds.next is }
{
    (0..slots.count).any(|k| eligible_build(code, slots.first + k, eligible).is_some())
}

// Marks the `n` members of a family of block `own` where another block reads one; no more are asked for than are listed.
fn unite_abroad(own: BlockNumber, members: &[u16], n: u16, readers: &[u8], marks: &mut [bool])
    ensures { n ≤ length members.now → MembersCrossed own.number members.now n readers.now marks.old marks.new }
{
    if fold_readers::listed_abroad(members, n, own, readers) {
        fold_family::mark_members(fold_family::first_members(members, n), true, marks);
    }
}

// Finds the family of the build that was read of an instruction, if one was, in `family`, whose marks are clear, and lists it in
// `members`; how many members there are. The block's copies stand in `copies`.
fn find_family(
    d: Option<ValueId>,
    copies: &[u16],
    shapes: &[u8],
    family: &mut [bool],
    members: &mut [u16],
) -> u16
    ensures { FamilyRead d copies.now shapes.now family.old family.new members.old members.new result }
{
    match d {
        None => 0,
        Some(v) => {
            let shape = bytes_wire::byte_at(shapes, v.0 as usize);
            let found = fold_family::family(copies, shape, v, family, members);
            found.members
        }
    }
}

// Marks the families of the builds of block `k` that another block reads; the block's copies stand in `copies`, and the marks
// of `family` are clear.
fn cross_builds(
    known: CrossFacts,
    k: BlockId,
    copies: &[u16],
    family: &mut [bool],
    marks: &mut [bool],
)
    ensures { (τ : Types) (ks : List Block) → k.0 < length ks
        → RowsAt copies.now (copies_of τ (get_or ks k.0 no_block).instructions)
        → family.old ≡ replicate known.entry.code.bounds.next false
        → Crossed τ ks (λ σ m. cross_block σ τ ks k.0 m) known.entry marks.old marks.new }
{
    let own = fold_readers::block_number(k);
    let slots = bytes_index::block_slots(known.code.facts, k);
    let mut members: [u16; most::VALUES] = [0; most::VALUES];
    for j in 0..slots.count {
        let d = eligible_build(known.code, slots.first + j, known.eligible);
        let n = find_family(d, copies, known.shapes, family, &mut members);
        unite_abroad(own, &members, n, known.readers, marks);
        fold_family::unmark(&members, n, family);
    }
}

// Marks the families of the builds of block `k` that another block reads; its copies are looked for only where it has a
// build of an eligible type.
fn cross_block(known: CrossFacts, k: BlockId, marks: &mut [bool])
    ensures { (τ : Types) (ks : List Block) → k.0 < length ks
        → Crossed τ ks (λ σ m. cross_block σ τ ks k.0 m) known.entry marks.old marks.new }
{
    let slots = bytes_index::block_slots(known.code.facts, k);
    if !has_build(known.code, slots, known.eligible) {
        return;
    }
    let mut copies: [u16; fold_family::SIZE] = [0; fold_family::SIZE];
    fold_copies::scan_copies(known.code, slots.first, slots.count, &mut copies, &mut []);
    let mut family: [bool; most::VALUES] = [false; most::VALUES];
    let n = known.code.bounds.next as usize;
    cross_builds(known, k, &copies, &mut family[..n], marks);
}

// Marks the families of all builds that another block reads, block by block.
fn cross_read(known: CrossFacts, marks: &mut [bool])
    ensures { (τ : Types) (ks : List Block) → Crossed τ ks (λ σ m. cross_blocks σ τ ks 0 ks m) known.entry marks.old marks.new }
{
    for k in 0..known.code.bounds.blocks {
        cross_block(known, BlockId(k), marks);
    }
}

// Marks the aggregates that are used across blocks; the readers are noted in `readers`, which are clear.
fn cross_blocks(
    code: Code,
    shapes: &[u8],
    eligible: &[bool],
    readers: &mut [u8],
    marks: &mut [bool],
)
    requires { code.bounds.next ≤ most_values }
    ensures { readers.old ≡ replicate code.entry.bounds.next 0
        → CrossMarks code.entry shapes.now eligible.now marks.old marks.new }
{
    fold_readers::note_readers(code, readers);
    let known = CrossFacts {
        code,
        shapes,
        eligible,
        readers,
    };
    cross_read(known, marks);
}

// Marks in `marks`, which are clear, one for each value, the aggregates that are used across blocks. Where there is one block,
// no other reads a value.
pub fn cross_marks(code: Code, shapes: &[u8], eligible: &[bool], marks: &mut [bool])
    ensures { CrossMarks code.entry shapes.now eligible.now marks.old marks.new }
{
    if code.bounds.blocks < 2 {
        return;
    }
    if most::VALUES < code.bounds.next as usize {
        return;
    }
    let mut table: [u8; most::VALUES] = [0; most::VALUES];
    let n = code.bounds.next as usize;
    cross_blocks(code, shapes, eligible, &mut table[..n], marks);
}
