// Counts, held to their mosts: a count that passes its most is refused at its own offset.
// (One function over u8 and u16 would be no plainer: its contract would have to tie the order of its type to that of numbers, and where
// the test is handed over, each call has as much to write as the `if` has.)
#![tactic(auto)]

ghost use Rattle.std.specs.Prelude.{◌≡◌};
ghost use Rattle.bytes_wire.specs.Parse.{as_parse};
ghost use Rattle.bytes_wire.specs.Number.{u8_of, u16_of, counted};
ghost use Rattle.bytes_count.specs.Count.{counted_twice};

use bytes_wire::{Cause, Read, Refusal};

// The count of a list: "lists u8 count first".
pub fn list_count(s: &[u8], most: u8) -> Result<Read<u8>, Refusal>
    ensures { as_parse result ≡ counted most (u8_of s.now) }
{
    let count = bytes_wire::read_u8(s)?;
    if most < count.value {
        return Err(Cause::TooMany.at(0));
    }
    Ok(count)
}

// The count of values, of blocks or of types.
pub fn section_count(s: &[u8], most: u16) -> Result<Read<u16>, Refusal>
    ensures { as_parse result ≡ counted most (u16_of s.now) }
{
    let x = bytes_wire::read_u16(s)?;
    if most < x.value {
        return Err(Cause::TooMany.at(0));
    }
    Ok(x)
}

// The count of a block's instructions, behind `total` instructions of other blocks.
pub fn block_count(s: &[u8], most: u16, all: u16, total: u16) -> Result<Read<u16>, Refusal>
    ensures { as_parse result ≡ counted_twice most all total (u16_of s.now) }
{
    let count = section_count(s, most)?;
    if (all as u32) < (total as u32) + (count.value as u32) {
        return Err(Cause::TooMany.at(0));
    }
    Ok(count)
}
