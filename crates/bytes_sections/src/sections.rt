// The parts of a routine: sizes, map, recorded types, parameters, blocks.
ghost use Rattle.std.specs.Prelude.{◌≡◌, ◌≤◌, ◌<◌, length, drop};
ghost use Rattle.bytes_wire.specs.Parse.{map_parse};
ghost use Rattle.bytes_field.specs.Walk.{as_part, unit};
ghost use Rattle.bytes_sections.specs.Decode.{map_of, has_recorded, sizes_of};
ghost use Rattle.bytes_sections.specs.Index.{RecordedOne, RecordedRead, ParametersRead, BlocksRead, as_sizes};
ghost use Rattle.bytes_index.specs.Table.{facts_size};
ghost use Rattle.mir.specs.Most.{most_blocks};

use crate::{MOSTS, Sizes};
use bytes_block::Mosts;
use bytes_field::{Bounds, Scan};
use bytes_row::class::Class;
use bytes_wire::{Cause, Refusal};
use mir::{BlockId, ValueId};

// Where the number of blocks and the entry block stand behind the next value.
const BLOCKS: usize = 2;

const ENTRY: usize = 4;

// How many bytes the sizes have: next value, block count, entry block.
pub const SIZES: usize = 6;

// The row of the parameters: one list of values defined here.
const PARAMETERS: [Class; 1] = [Class::Dests];

// "u16 next value; u16 block count; u16 entry block".
pub fn read_sizes(s: &[u8], m: Mosts) -> Result<Sizes, Refusal>
    ensures { as_sizes result ≡ sizes_of m s.now }
{
    let next = bytes_count::section_count(s, m.next)?;
    let second = table::behind(s, BLOCKS);
    let blocks = bytes_count::section_count(second, m.blocks).map_err(|e| e.behind(BLOCKS))?;
    let third = table::behind(s, ENTRY);
    let entry = bytes_wire::read_below(third, blocks.value).map_err(|e| e.behind(ENTRY))?;
    Ok(Sizes {
        next: next.value,
        blocks: blocks.value,
        entry: BlockId(entry.value),
    })
}

// The map of the values that have a recorded type.
pub fn map_part(s: &[u8], next: u16) -> Result<usize, Refusal>
    ensures { as_part result ≡ map_parse unit (map_of next s.now) }
{
    let whole = (next / 8) as usize;
    if s.len() < whole {
        return Err(Cause::Truncated.at(s.len()));
    }
    let bits = next % 8;
    if bits == 0 {
        return Ok(whole);
    }
    let Some(last) = s.get(whole) else {
        return Err(Cause::Truncated.at(whole));
    };
    if 1 << bits <= *last {
        return Err(Cause::Undefined.at(whole));
    }
    Ok(whole + 1)
}

// Value v's bit in the map at a place.
fn map_bit(s: &[u8], map: usize, v: ValueId) -> bool
    ensures { result ≡ has_recorded (drop map s.now) v.0 }
{
    let b = bytes_wire::byte_at(table::behind(s, map), (v.0 / 8) as usize);
    bytes_field::bit(b, (v.0 % 8) as u8)
}

// The recorded type of value v, at `here` where it has one: the table is given 1 and its number, else 0.
fn recorded_one(
    s: &[u8],
    here: usize,
    map: usize,
    v: ValueId,
    types: u16,
    facts: &mut [u16],
) -> Result<usize, Refusal>
    requires { here ≤ length s.now }
    ensures { RecordedOne types (drop map s.now) v.0 here s.now (as_part result) facts.old facts.new }
{
    let place = bytes_index::RECORDED + v.0 as usize;
    if !map_bit(s, map, v) {
        table::put(facts, place, 0);
        return Ok(here);
    }
    let t = bytes_wire::read_below(&s[here..], types).map_err(|e| e.behind(here))?;
    table::put(facts, place, t.value + 1);
    Ok(here + t.size)
}

// The recorded types, from `at` on, into the table.
pub fn recorded_part(
    s: &[u8],
    at: usize,
    map: usize,
    next: u16,
    types: u16,
    facts: &mut [u16],
) -> Result<usize, Refusal>
    requires { at ≤ length s.now }
    ensures { RecordedRead types (drop map s.now) next at s.now (as_part result) facts.old facts.new }
{
    let mut here = at;
    for v in 0..next {
        here = recorded_one(s, here, map, ValueId(v), types, facts)?;
    }
    Ok(here)
}

// The parameters, from their count on: each is marked as defined.
pub fn parameters_part(s: &[u8], b: Bounds, seen: &mut [bool]) -> Result<usize, Refusal>
    ensures { ParametersRead b s.now (as_part result) seen.old seen.new }
{
    let mut none: [u16; 0] = [0; 0];
    let start = Scan {
        size: 0,
        reads: 0,
        late: false,
    };
    let p = bytes_row::row_behind(s, start, &PARAMETERS, 0, b, seen, &mut none)?;
    Ok(p.size)
}

// The blocks, from `at` on: the table is given each block's place, the slot of its first instruction, and its rows.
pub fn blocks_part(
    s: &[u8],
    at: usize,
    b: Bounds,
    seen: &mut [bool],
    facts: &mut [u16],
) -> Result<usize, Refusal>
    requires { (at ≤ length s.now) × (b.blocks ≤ most_blocks) × (facts_size ≤ length facts.old) }
    ensures { BlocksRead b at s.now seen.old (as_part result) facts.old facts.new }
{
    let mut here = at;
    let mut total: u16 = 0;
    bytes_index::set_block(facts, BlockId(0), here, 0);
    for k in 0..b.blocks {
        let x = bytes_block::read_block(s, here, MOSTS, b, total, total + k, seen, facts)?;
        here = x.end;
        total = total + x.count;
        bytes_index::set_block(facts, BlockId(k + 1), here, total);
    }
    Ok(here)
}
