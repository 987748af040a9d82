// Lookups on an accepted routine, by the table of facts: a block's bytes, a type's place, a value's recorded type.
#![tactic(auto)]

ghost use Rattle.std.specs.Prelude.{◌≡◌, List, ◌<◌, length, get_or};
ghost use Rattle.bytes_wire.specs.WellFormed.{Bytes};
ghost use Rattle.mir.specs.Syntax.{Block};
ghost use Rattle.bytes_field.specs.declared.Bounds.{Bounds};
ghost use Rattle.bytes_index.specs.Code.{no_block};
ghost use Rattle.bytes_index.specs.Recorded.{recorded_from};
ghost use Rattle.bytes_block.specs.Encode.{block_bytes};
ghost use Rattle.bytes_block.specs.Places.{BlocksAt};
ghost use Rattle.bytes_block.specs.declared.Mosts.{Mosts};
ghost use Rattle.mir.specs.Option.{as_option};

use mir::{BlockId, TypeId, ValueId};

// The part of the caller's bytes that is block k.
pub fn block_bytes<'a>(s: &'a [u8], blocks: &[u16], k: BlockId) -> &'a [u8]
    ensures { (m : Mosts) (b : Bounds) (xs : List Block) → Bytes s.now →
        BlocksAt m b s.now blocks.now xs → k.0 < length xs → result.now ≡ block_bytes (get_or xs k.0 no_block) }
{
    let i = k.0 as usize;
    let from = table::place(blocks, i);
    let to = table::place(blocks, i + 1);
    bytes_field::between(s, from, to)
}

// The place of a type's kind, where `starts` has the places of the types.
pub fn type_place(starts: &[u16], t: TypeId) -> usize
    ensures { result ≡ get_or starts.now t.0 0 }
{
    table::place(starts, t.0 as usize)
}

// The recorded type of a value, where `recorded` has those of all values.
pub fn recorded_type(recorded: &[u16], v: ValueId) -> Option<TypeId>
    ensures { as_option result ≡ recorded_from (get_or recorded.now v.0 0) }
{
    table::number(recorded, v.0 as usize)
        .checked_sub(1)
        .map(TypeId)
}
