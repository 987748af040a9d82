// The whole reader.
// (Bytes and a place in them stay two parameters, as in bytes_block.)
#![tactic(auto)]

ghost use Rattle.std.specs.Prelude.{◌≡◌, false, ◌≤◌, length, replicate};
ghost use Rattle.bytes_sections.specs.Facts.{BodyRead, RoutineRead};
ghost use Rattle.bytes_index.specs.Table.{facts_size};
ghost use Rattle.mir.specs.Most.{most_values, most_blocks};

use bytes_field::Bounds;
use bytes_sections::sections;
use bytes_wire::{Cause, Refusal};
use mir::most;

// What stands behind the sizes: parameters, recorded types, blocks, and nothing more. No value is marked in `seen`.
fn read_marked(
    s: &[u8],
    at: usize,
    b: Bounds,
    seen: &mut [bool],
    facts: &mut [u16],
) -> Result<Bounds, Refusal>
    requires { (at ≤ length s.now) × (seen.old ≡ replicate b.next false)
        × (b.next ≤ most_values) × (b.blocks ≤ most_blocks) × (facts_size ≤ length facts.old) }
    ensures { BodyRead b at s.now result facts.old facts.new }
{
    let parameters = sections::parameters_part(&s[at..], b, seen).map_err(|e| e.behind(at))?;
    let map = at + parameters;
    let bits = sections::map_part(&s[map..], b.next).map_err(|e| e.behind(map))?;
    let code = sections::recorded_part(s, map + bits, map, b.next, b.types, facts)?;
    let end = sections::blocks_part(s, code, b, seen, facts)?;
    if end < s.len() {
        return Err(Cause::Trailing.at(end));
    }
    Ok(b)
}

// What stands behind the sizes, where no value is marked as defined yet: the marks are made here.
fn read_body(s: &[u8], at: usize, b: Bounds, facts: &mut [u16]) -> Result<Bounds, Refusal>
    requires { (at ≤ length s.now) × (b.next ≤ most_values) × (b.blocks ≤ most_blocks) × (facts_size ≤ length facts.old) }
    ensures { BodyRead b at s.now result facts.old facts.new }
{
    let n = b.next as usize;
    let mut marks: [bool; most::VALUES] = [false; most::VALUES];
    read_marked(s, at, b, &mut marks[0..n], facts)
}

// Reads a whole routine, and fills the table with its facts. What a refusal leaves in the table is free (`LeftFree`).
pub fn read_routine(s: &[u8], facts: &mut [u16]) -> Result<Bounds, Refusal>
    requires { facts_size ≤ length facts.old }
    ensures { RoutineRead s.now result facts.old facts.new }
{
    let m = bytes_sections::MOSTS;
    let at = bytes_types::read_types(s, m.types, m.list, facts)?;
    let sizes = sections::read_sizes(&s[at..], m).map_err(|e| e.behind(at))?;
    let b = Bounds {
        types: bytes_wire::u16_at(s, 0),
        next: sizes.next,
        blocks: sizes.blocks,
        list: m.list,
        projections: m.projections,
    };
    read_body(s, at + sections::SIZES, b, facts)
}
