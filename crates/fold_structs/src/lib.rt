// Which MakeStructs of a block pass their conditions: the named type is eligible, the dest is not used in another block,
// and each field of the struct's row is given.
#![tactic(auto)]

ghost use Rattle.fold_structs.specs.Told.{Gives, AllGiven, TellsRow, Passes, StructTold, StructsTold};

use bytes_index::{Code, Slots};
use fold::Settings;
use mir::kind::Kind;
use mir::shape::Shape;
use mir::{NameId, TypeId};
use rewrite_parts::Listed;

// A name is given among the inits of a MakeStruct.
fn gives(inits: Listed, name: NameId) -> bool
    ensures { Gives inits.entry name result }
{
    rewrite_parts::find_init(inits, name).is_some()
}

// Each name of a struct's row is.
fn all_given(inits: Listed, row: &[u8]) -> bool
    ensures { AllGiven inits.entry row.now result }
{
    (0..bytes_types::field_count(row)).all(|i| gives(inits, bytes_types::field_name(row, i)))
}

// Type `y` is a struct, and each of its fields is given in the MakeStruct with these fields of its own.
fn told_by(code: Code, y: TypeId, own: &[u8]) -> bool
    ensures { TellsRow code.entry y own.now result }
{
    let inits = Listed::behind(own, rewrite_parts::COUNT);
    fold_shapes::type_shape(code, y) == Shape::Struct && all_given(inits, code.type_row(y))
}

// Whether the MakeStruct `t` of `size` bytes passes its conditions: its named type stands last. (`t` goes on behind it, and
// is no slice of that length: what is promised speaks of how an instruction reads from its place on.)
fn struct_passes(code: Code, settings: Settings, cross: &[bool], t: &[u8], size: usize) -> bool
    ensures { Passes code.entry settings cross.now t.now size result }
{
    if size < bytes_field::ID {
        return false;
    }
    let named = bytes_operands::last_type(t, size);
    if !fold_shapes::type_eligible(code, named, settings) {
        return false;
    }
    let own = bytes_operands::own_fields(t);
    let d = bytes_operands::dest(own);
    if table::flag(cross, d.0 as usize) {
        return false;
    }
    let recorded = bytes_lookup::recorded_type(bytes_index::recorded(code.facts), d);
    told_by(code, recorded.unwrap_or(named), own)
}

// Whether the instruction in a slot is a MakeStruct that passes its conditions.
fn struct_at(code: Code, settings: Settings, cross: &[bool], slot: u16) -> bool
    ensures { StructTold code.entry settings cross.now slot result }
{
    if bytes_index::instruction_kind(code.facts, slot) != Some(Kind::MakeStruct) {
        return false;
    }
    struct_passes(
        code,
        settings,
        cross,
        code.instruction(slot),
        code.slot_size(slot),
    )
}

// Gives each of a block's instructions a flag: whether it is a MakeStruct that passes its conditions.
pub fn fill_structs(
    code: Code,
    slots: Slots,
    settings: Settings,
    cross: &[bool],
    structs: &mut [bool],
)
    ensures { StructsTold code.entry slots settings cross.now structs.old structs.new }
{
    for k in 0..slots.count {
        let yes = struct_at(code, settings, cross, slots.first + k);
        table::put(structs, k as usize, yes);
    }
}
