// Chains of projections: which part of a tracked value a Load takes, and which one a Store changes.
#![tactic(auto)]

mod path;

ghost use Rattle.std.specs.Prelude.{◌+◌, ◌≤◌, ◌<◌, IfSome};
ghost use Rattle.mir.specs.Kind.{number_of_kind};
ghost use Rattle.rewrite_parts.specs.Rows.{row_most, used_below};
ghost use Rattle.rewrite_chains.specs.Chained.{FoundInType, LastFound};
ghost use Rattle.rewrite_chains.specs.Chained.{PlaceWalks, PartLoaded, StoredAt, PartStored, LastStored, StoreForwarded};

use bytes_index::{Code, Typing};
use bytes_struct::FoundField;
use fold::Edition;
use mir::kind::Kind;
use mir::{NameId, Projection, ValueId};
use rewrite_parts::Parts;

// A field by its name in the recorded type of a value, where it has one.
pub fn value_field(typing: Typing, v: ValueId, name: NameId) -> Option<FoundField>
    ensures { FoundInType typing.entry v name result }
{
    let t = bytes_lookup::recorded_type(typing.recorded, v)?;
    bytes_struct::find_field(typing.code, t, name)
}

// The last projection of a place, and the value of which it names a part.
#[derive(Clone, Copy)]
pub struct LastStep {
    pub holder: ValueId,
    pub step: Projection,
}

// Where the place of the Load or the Store in a slot ends, by its kind. None where there are no projections, or no value that the last
// could name a part of.
fn last_step(code: Code, slot: u16, parts: Parts, kind: Kind) -> Option<LastStep>
    ensures { LastFound code.entry slot parts.entry (number_of_kind kind) result }
{
    let t = code.instruction(slot);
    let n = bytes_operands::step_count(bytes_operands::own_fields(t), kind);
    if n == 0 {
        return None;
    }
    let base = bytes_index::read(code.facts, slot, 0);
    let holder = path::holder(code, t, parts, base, n - 1)?;
    let step = bytes_operands::projection(t, code.bounds, n - 1)?;
    Some(LastStep { holder, step })
}

// sroa.rs 1489, `forward_projection_chain`: the place of the part that the Load in a slot takes.
pub fn load_part(code: Code, slot: u16, parts: Parts) -> Option<usize>
    ensures { PartLoaded code.entry slot parts.entry result }
{
    let last = last_step(code, slot, parts, Kind::Load)?;
    path::step_part(code, parts, last.holder, last.step)
}

// Where the value of the Store in a slot stands.
fn stored_place(code: Code, slot: u16) -> usize
    ensures { StoredAt code.entry slot result }
{
    let t = code.instruction(slot);
    let u = bytes_operands::own_fields(t);
    let first = bytes_operands::operand_first(u, Kind::Store);
    bytes_index::place(code.facts, slot) + bytes_operands::fields_place(t) + first
}

// Part `k` of `v` is the value at a place now, where `v` is tracked and has that part: how much of the rows is used then.
fn store_part(
    tracked: &mut [bool],
    rows: &mut [u16],
    used: usize,
    v: ValueId,
    k: u32,
    place: usize,
) -> Option<usize>
    requires { used < used_below }
    ensures used_bound { IfSome result (λ end. end ≤ used + row_most) }
    ensures part_stored { PartStored v k place tracked.old rows.old used
        tracked.new rows.new result }
{
    let parts = Parts { tracked, rows };
    rewrite_parts::find_part(parts, v, k)?;
    let more = rewrite_parts::replace(tracked, rows, used, v, v, k, place);
    Some(more)
}

// The part of `v` that a projection names is the value at a place now.
fn store_last(
    code: Code,
    tracked: &mut [bool],
    rows: &mut [u16],
    used: usize,
    v: ValueId,
    p: Projection,
    place: usize,
) -> Option<usize>
    requires { used < used_below }
    ensures used_bound { IfSome result (λ end. end ≤ used + row_most) }
    ensures last_stored { LastStored code.entry v p place tracked.old rows.old used
        tracked.new rows.new result }
{
    let k = path::step_index(code, v, p)?;
    store_part(tracked, rows, used, v, k, place)
}

// sroa.rs 1548, `try_forward_store_chain`: the Store in a slot changes the part that its projections name: how much of the
// rows is used then, or nothing where it changes none.
pub fn forward_store(
    code: Code,
    slot: u16,
    tracked: &mut [bool],
    rows: &mut [u16],
    used: usize,
) -> Option<usize>
    requires { used < used_below }
    ensures used_bound { IfSome result (λ end. end ≤ used + row_most) }
    ensures store_forwarded { StoreForwarded code.entry slot tracked.old rows.old used
        tracked.new rows.new result }
{
    let parts = Parts { tracked, rows };
    let last = last_step(code, slot, parts, Kind::Store)?;
    let place = stored_place(code, slot);
    store_last(code, tracked, rows, used, last.holder, last.step, place)
}

// No projection of the place of the Load or the Store in a slot, by its kind, is an Index by a Boolean literal.
fn no_boolean(code: Code, slot: u16, kind: Kind) -> bool
    ensures { PlaceWalks code.entry slot (number_of_kind kind) Edition.Second result }
{
    let t = code.instruction(slot);
    let n = bytes_operands::step_count(bytes_operands::own_fields(t), kind);
    for k in 0..n {
        if path::is_boolean(bytes_operands::projection(t, code.bounds, k)) {
            return false;
        }
    }
    true
}

// Whether the place of the Load or the Store in a slot, by its kind, can be walked in an edition. (In the first any can: no projection is
// looked at.)
pub fn walkable(code: Code, slot: u16, kind: Kind, edition: Edition) -> bool
    ensures { PlaceWalks code.entry slot (number_of_kind kind) edition result }
{
    match edition {
        Edition::First => true,
        Edition::Second => no_boolean(code, slot, kind),
    }
}
