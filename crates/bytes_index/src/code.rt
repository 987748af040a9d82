// An accepted routine as the code goes over it.
ghost use Rattle.std.specs.Prelude.{◌≡◌, ◌-◌, drop, get_or, take};
ghost use Rattle.bytes_index.specs.Table.{place_in, end_in, recorded_in};

use bytes_field::Bounds;
use mir::TypeId;

// Its bytes, what its numbers stay below, and the table of facts. Where types alone are asked for, any table will do that begins with
// their places, and where a function reads no bounds, or some of them, any others will do: its contract says of what it speaks.
#[derive(Clone, Copy)]
pub struct Code<'a> {
    pub bytes: &'a [u8],
    pub bounds: Bounds,
    pub facts: &'a [u16],
}

impl<'a> Code<'a> {
    // What stands from the instruction or the terminator in a slot on.
    pub fn instruction(self, slot: u16) -> &'a [u8]
        ensures { result.now ≡ drop (place_in self.entry.facts.now slot) self.entry.bytes.now }
    {
        table::behind(self.bytes, crate::place(self.facts, slot))
    }

    // The bytes of the instruction or the terminator in a slot.
    pub fn slot_bytes(self, slot: u16) -> &'a [u8]
        ensures { result.now ≡ take (end_in self.entry.facts.now slot - place_in self.entry.facts.now slot)
            (drop (place_in self.entry.facts.now slot) self.entry.bytes.now) }
    {
        let at = crate::place(self.facts, slot);
        bytes_field::between(self.bytes, at, crate::end(self.facts, slot))
    }

    // How many bytes these are, by the table.
    pub fn slot_size(self, slot: u16) -> usize
        ensures { result ≡ end_in self.entry.facts.now slot - place_in self.entry.facts.now slot }
    {
        crate::end(self.facts, slot).saturating_sub(crate::place(self.facts, slot))
    }

    // What stands from the row of a type on, where the table of facts begins with the places of the types.
    pub fn type_row(self, t: TypeId) -> &'a [u8]
        ensures { result.now ≡ drop (get_or self.entry.facts.now t.0 0) self.entry.bytes.now }
    {
        table::behind(self.bytes, table::place(self.facts, t.0 as usize))
    }

    // The same routine with the recorded types that its table has.
    pub fn typing(self) -> Typing<'a>
        ensures code { result.code ≡ self.entry }
        ensures recorded { result.recorded.now ≡ recorded_in self.entry.facts.now }
    {
        Typing {
            code: self,
            recorded: crate::recorded(self.facts),
        }
    }
}

// The same, and the recorded type of each value, in a table of its own: any such table will do.
#[derive(Clone, Copy)]
pub struct Typing<'a> {
    pub code: Code<'a>,
    pub recorded: &'a [u16],
}
