// What can be decided of an instruction: what is found of its source, and what is to be done with its dest.
#![tactic(auto)]

pub mod spot;

ghost use Rattle.std.specs.Prelude.{◌≡◌, List, cond, ℕ, ◌+◌, ◌-◌, ◌≤◌, ◌<◌, length};
ghost use Rattle.std.proofs.Math.Option.{some, none};
ghost use Rattle.std.proofs.Math.ListN.{get_elem?};
ghost use Rattle.bytes_wire.specs.Number.{at16};
ghost use Rattle.bytes_field.specs.declared.Bounds.{Bounds};
ghost use Rattle.bytes_types.specs.Index.{TypesAt};
ghost use Rattle.mir.specs.Lookup.{Types, row_of, is_aggregate, on_some};
ghost use Rattle.fold.specs.Tables.{Ground};
ghost use Rattle.mir.specs.Parts.{struct_row};
ghost use Rattle.rewrite.specs.State.{AggStates, state_of};
ghost use Rattle.rewrite_parts.specs.Rows.{row_most, used_below, Rep, InitAt};
ghost use Rattle.rewrite_arms.specs.Decided.{SourceOf, FieldPart, TakePlanned, AssignPlanned, InsertPlanned, StructPlanned, ListedAt, FieldsBuilt};

use bytes_index::Code;
use bytes_types::layout;
use mir::shape::Shape;
use mir::{NameId, TypeId, Value, ValueId};
use rewrite_parts::{Listed, Parts};
pub use spot::Spot;

// How many bytes the dest has that an instruction's own fields begin with; behind it a build has the number of its parts,
// and then these.
pub const DEST_BYTES: usize = rewrite_parts::COUNT;

// What an instruction that is left out counts as.
#[derive(Clone, Copy)]
pub enum Counted {
    Build,
    Extract,
    Insert,
    Assign,
}

// The instruction stays; or it is left out and its dest is tracked: the dest, and what it counts as; or an Assign stands
// for it: the dest, the place of the input where the assigned value stands, and the type. (A value and no closure: one crate settles it,
// another puts it out, which is lent the output.)
#[derive(Clone, Copy)]
pub enum Action {
    Keep,
    Track {
        dest: ValueId,
        what: Counted,
    },
    Assign {
        dest: ValueId,
        place: usize,
        named: TypeId,
    },
}

// What was decided, settled or reached, and how much of the rows is used then.
#[derive(Clone, Copy)]
pub struct Used<T> {
    pub value: T,
    pub used: usize,
}

// What is to be done with a dest, before any row is written: what settles it only reads the tables, and what carries it out writes them.
// Keep: nothing, the instruction stays.
// Share: it takes the row of a tracked value; that value, and what the instruction counts as.
// Assign: an Assign stands for the instruction; the place where the assigned value stands, and the type.
// Replace: it gets a tracked value's parts with one replaced; that value, the part's number, the place of the new part.
// Values: it gets the values of the instruction's list.
// Fields: it gets the values of the instruction's inits, in the order of a struct type; that type.
#[derive(Clone, Copy)]
pub enum Plan {
    Keep,
    Share {
        source: ValueId,
        what: Counted,
    },
    Assign {
        place: usize,
        named: TypeId,
    },
    Replace {
        source: ValueId,
        part: u32,
        place: usize,
    },
    Values,
    Fields(TypeId),
}

// The operand that a value is, where it is tracked and that is asked for.
pub fn tracked_source(tracked: &[bool], x: Value, whole: bool) -> Option<ValueId>
    ensures { (next : ℕ) (s rows : List ℕ) (used : ℕ) (S : AggStates) → Rep next s tracked.now rows used S
        → SourceOf S (cond whole (state_of S x) none) result }
{
    if !whole {
        return None;
    }
    let v = x.operand()?;
    rewrite_parts::tracked(tracked, v).then_some(v)
}

// The type is an aggregate.
pub fn is_aggregate(code: Code, t: TypeId) -> bool
    ensures { (most : ℕ) (τ : Types) → TypesAt most code.entry.bytes.now code.entry.facts.now τ.rows → length τ.rows ≡ code.entry.bounds.types
        → result ≡ is_aggregate (row_of τ (some t)) }
{
    fold_shapes::type_shape(code, t) != Shape::Other
}

// The type by which a struct's parts go: the recorded one of its dest, else the named one.
fn struct_type(recorded: &[u16], d: ValueId, named: TypeId) -> TypeId
    ensures { (b : Bounds) (s types : List ℕ) (τ : Types) → Ground b s types recorded.now τ → d.0 < b.next
        → struct_row τ d named ≡ row_of τ (some result) }
{
    bytes_lookup::recorded_type(recorded, d).unwrap_or(named)
}

// A build of a struct that is taken apart, wherever it stands.
pub fn plan_struct(code: Code, dest: ValueId, named: TypeId) -> Plan
    ensures { (p : Spot) → p.dest ≡ dest → StructPlanned code.entry p named result }
{
    let t = struct_type(bytes_index::recorded(code.facts), dest, named);
    match fold_shapes::type_shape(code, t) {
        Shape::Struct => Plan::Fields(t),
        _ => Plan::Keep,
    }
}

// The values or the inits of the build at a spot.
pub fn listed<'a>(code: Code<'a>, p: Spot) -> Listed<'a>
    ensures { ListedAt code.entry p result }
{
    Listed::behind(code.bytes, p.off + DEST_BYTES)
}

// A build of a struct by its type: its dest gets the values of its inits and it is left out, where all are given.
pub fn build_fields(
    code: Code,
    p: Spot,
    t: TypeId,
    tracked: &mut [bool],
    rows: &mut [u16],
    used: usize,
) -> Used<Action>
    requires { used < used_below }
    ensures used_bound { result.used ≤ used + row_most }
    ensures fields_built { FieldsBuilt code.entry p t tracked.old rows.old used
        tracked.new rows.new result }
{
    let row = code.type_row(t);
    let names = Listed::behind(row, layout::STRUCT_COUNT);
    match rewrite_parts::track_named(tracked, rows, used, p.dest, listed(code, p), names) {
        Some(end) => Used {
            value: Action::Track {
                dest: p.dest,
                what: Counted::Build,
            },
            used: end,
        },
        None => Used {
            value: Action::Keep,
            used,
        },
    }
}

// An insert: where the source is tracked and has part `k`, the dest has its parts with the one at `place` there.
pub fn plan_insert(x: Value, k: u32, place: usize, parts: Parts) -> Plan
    ensures { InsertPlanned x k place parts.entry result }
{
    match tracked_source(parts.tracked, x, true) {
        None => Plan::Keep,
        Some(v) => {
            if rewrite_parts::part_count(parts.rows, v) as u32 <= k {
                return Plan::Keep;
            }
            Plan::Replace {
                source: v,
                part: k,
                place,
            }
        }
    }
}

// Where part `k` of a tracked value stands.
pub fn part(parts: Parts, x: Value, k: u32) -> Option<usize>
    ensures { (next : ℕ) (s : List ℕ) (used : ℕ) (S : AggStates)
        → Rep next s parts.entry.tracked.now parts.entry.rows.now used S
        → InitAt next s (on_some (state_of S x) (λ xs. get_elem? xs k)) result }
{
    let v = x.operand()?;
    rewrite_parts::find_part(parts, v, k)
}

// Where the part of a tracked value stands that a name stands for, by the value's recorded type.
pub fn field_part(code: Code, parts: Parts, x: Value, name: NameId) -> Option<usize>
    ensures { FieldPart code.entry parts.entry x name result }
{
    let v = x.operand()?;
    let found = rewrite_chains::value_field(code.typing(), v, name)?;
    rewrite_parts::find_part(parts, v, found.position)
}

// A part that is taken: a tracked one hands its parts on, any other is assigned.
pub fn plan_take(code: Code, found: Option<usize>, t: TypeId, whole: bool, tracked: &[bool]) -> Plan
    ensures { TakePlanned code.entry found t whole tracked.now result }
{
    let Some(place) = found else {
        return Plan::Keep;
    };
    let x = bytes_operands::value_at(code.bytes, place, code.bounds.next);
    match tracked_source(tracked, x, whole) {
        None => Plan::Assign { place, named: t },
        Some(v) => Plan::Share {
            source: v,
            what: Counted::Extract,
        },
    }
}

// An Assign: at an aggregate type a tracked source hands its parts on.
pub fn plan_assign(x: Value, whole: bool, tracked: &[bool]) -> Plan
    ensures { AssignPlanned x whole tracked.now result }
{
    match tracked_source(tracked, x, whole) {
        None => Plan::Keep,
        Some(v) => Plan::Share {
            source: v,
            what: Counted::Assign,
        },
    }
}
