// Load and Store; `t` are the own fields of an instruction.
#![tactic(auto)]

ghost use Rattle.bytes_field.specs.Decode.{load_of, store_of};
ghost use Rattle.shelf_field.specs.Asked.{Judged};

use bytes_index::Typing;
use mir::kind::Kind;

// Where a Load's dest, its place and the projections stand: these behind the base and their count.
const DEST: usize = 0;

const LOADED: usize = 2;

const LOADED_STEPS: usize = 5;

// Where a Store's place stands.
const STORED: usize = 0;

// A Load: the dest has the type that is named, and the place leads to it.
pub fn load(typing: Typing, t: &[u8]) -> bool
    ensures { Judged load_of typing.entry t.now result }
{
    let steps = bytes_operands::step_count(t, Kind::Load);
    let e = bytes_operands::projections_end(t, LOADED_STEPS, steps);
    let y = shelf_field::type_at(t, typing.code.bounds, e);
    let dest = shelf_field::id_has(typing, t, DEST, y);
    let place = shelf_place::place_fits(typing, t, LOADED, y);
    dest & place
}

// A Store: the value has the type that is named, and the place leads to it.
pub fn store(typing: Typing, t: &[u8]) -> bool
    ensures { Judged store_of typing.entry t.now result }
{
    let e = bytes_operands::operand_first(t, Kind::Store);
    let y = shelf_field::type_at(t, typing.code.bounds, bytes_operands::value_end(t, e));
    let value = shelf_field::value_fits(typing, t, e, y);
    let place = shelf_place::place_fits(typing, t, STORED, y);
    value & place
}
