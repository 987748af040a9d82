// What becomes of one instruction, all kinds but Call and Store: sroa.rs 805 to 1304. The parts of what it defines, if
// they are tracked then, go into the rows.
// (Routine, spot and tables stay three parameters: what finds a source takes no tables, what follows a chain no spot.)
#![tactic(auto)]

ghost use Rattle.std.specs.Prelude.{◌≡◌, ℕ, ◌+◌, ◌≤◌, ◌<◌};
ghost use Rattle.mir.specs.Kind.{number_of_kind};
ghost use Rattle.rewrite_parts.specs.Rows.{row_most, used_below};
ghost use Rattle.rewrite_arms.specs.Decided.{acts, SpotAt};
ghost use Rattle.rewrite_arms.specs.Decided.{assign_kind, load_kind, extract_element_kind, extract_field_kind, insert_field_kind, insert_element_kind};
ghost use Rattle.rewrite_decide.specs.Stepped.{always, of_tuples, walked_in, of_structs, SourceAt, KindPlanned, StepPlanned};
ghost use Rattle.rewrite_decide.specs.Stepped.{ValuesBuilt, CarriedOut, StepDecided};

use bytes_index::Code;
use fold::{Edition, Settings};
use mir::kind::Kind;
use mir::{NameId, TypeId, Value, ValueId};
use rewrite_arms::{Action, Counted, DEST_BYTES, Plan, Spot, Used};
use rewrite_parts::Parts;

// What an extract or an insert says of its source: the value, the place behind it, where the name or the index of the part stands, and
// the type that it names.
#[derive(Clone, Copy)]
pub struct Source {
    pub value: Value,
    pub end: usize,
    pub named: TypeId,
}

// The instruction that is decided of: its routine, the settings, its slot, and whether it is a build that is taken apart.
#[derive(Clone, Copy)]
pub struct Turn<'a> {
    pub code: Code<'a>,
    pub settings: Settings,
    pub slot: u16,
    pub fold: bool,
}

// The instruction in a slot. (Its dest by its place, which the spot has: what follows reads the routine's bytes from places too.)
fn find_spot(code: Code, slot: u16) -> Spot
    ensures { SpotAt code.entry.bytes.now code.entry.facts.now slot result }
{
    let at = bytes_index::place(code.facts, slot);
    let off = at + bytes_operands::fields_place(code.instruction(slot));
    Spot {
        off,
        end: bytes_index::end(code.facts, slot),
        dest: ValueId(bytes_wire::u16_at(code.bytes, off)),
    }
}

// The source of the extract or the insert at a spot: what extracts and inserts, by a name and by an index, have in common.
// (The rest of the four stays apart: a name is two bytes and is looked up in a type, an index is four and is the part's number.)
fn find_source(code: Code, p: Spot) -> Source
    ensures { SourceAt code.entry p result }
{
    let at = p.off + DEST_BYTES;
    Source {
        value: bytes_operands::value_at(code.bytes, at, code.bounds.next),
        end: bytes_operands::value_end(code.bytes, at),
        named: bytes_operands::last_type(code.bytes, p.end),
    }
}

// Whether a kind is looked at: under the settings for tuples and structs, and a build where it is taken apart. (Apart from what is done
// with it, in `plan`: as guards there, these would leave the last arm with nothing to say of which of them failed.)
fn active(settings: Settings, fold: bool, kind: Kind) -> bool
    ensures { result ≡ acts settings.tuples settings.structs fold (number_of_kind kind) }
{
    match kind {
        Kind::Assign => true,
        Kind::Load | Kind::ExtractTupleElement | Kind::InsertTuple => settings.tuples,
        Kind::ExtractStructField | Kind::InsertField => settings.structs,
        Kind::MakeTuple | Kind::MakeStruct | Kind::MakeFixedArray => fold,
        _ => false,
    }
}

// An Assign: sroa.rs 805.
fn assign(code: Code, p: Spot, parts: Parts) -> Plan
    ensures { (slot : ℕ) → KindPlanned assign_kind always code.entry slot p parts.entry result }
{
    let x = bytes_operands::value_at(code.bytes, p.off + DEST_BYTES, code.bounds.next);
    let t = bytes_operands::last_type(code.bytes, p.end);
    let whole = rewrite_arms::is_aggregate(code, t);
    rewrite_arms::plan_assign(x, whole, parts.tracked)
}

// A Load takes the part that its place leads to, where the edition walks it.
fn load(code: Code, edition: Edition, slot: u16, p: Spot, parts: Parts) -> Plan
    ensures { KindPlanned load_kind (walked_in edition) code.entry slot p parts.entry result }
{
    if !rewrite_chains::walkable(code, slot, Kind::Load, edition) {
        return Plan::Keep;
    }
    let t = bytes_operands::last_type(code.bytes, p.end);
    let found = rewrite_chains::load_part(code, slot, parts);
    let whole = rewrite_arms::is_aggregate(code, t);
    rewrite_arms::plan_take(code, found, t, whole, parts.tracked)
}

// An extract takes the tuple's element of its index.
fn extract_element(code: Code, p: Spot, parts: Parts) -> Plan
    ensures { (slot : ℕ) → KindPlanned extract_element_kind of_tuples code.entry slot p parts.entry result }
{
    let from = find_source(code, p);
    let k = bytes_wire::u32_at(code.bytes, from.end);
    let found = rewrite_arms::part(parts, from.value, k);
    rewrite_arms::plan_take(code, found, from.named, true, parts.tracked)
}

// An extract takes the struct's field of its name.
fn extract_field(code: Code, p: Spot, parts: Parts) -> Plan
    ensures { (slot : ℕ) → KindPlanned extract_field_kind of_structs code.entry slot p parts.entry result }
{
    let from = find_source(code, p);
    let name = NameId(bytes_wire::u16_at(code.bytes, from.end));
    let found = rewrite_arms::field_part(code, parts, from.value, name);
    rewrite_arms::plan_take(code, found, from.named, true, parts.tracked)
}

// An insert replaces the struct's field of its name, which its type has.
fn insert_field(code: Code, p: Spot, parts: Parts) -> Plan
    ensures { (slot : ℕ) → KindPlanned insert_field_kind of_structs code.entry slot p parts.entry result }
{
    let from = find_source(code, p);
    let name = NameId(bytes_wire::u16_at(code.bytes, from.end));
    match bytes_struct::find_field(code, from.named, name) {
        None => Plan::Keep,
        Some(found) => rewrite_arms::plan_insert(
            from.value,
            found.position,
            from.end + bytes_field::ID,
            parts,
        ),
    }
}

// An insert replaces the tuple's element of its index.
fn insert_element(code: Code, p: Spot, parts: Parts) -> Plan
    ensures { (slot : ℕ) → KindPlanned insert_element_kind of_tuples code.entry slot p parts.entry result }
{
    let from = find_source(code, p);
    let k = bytes_wire::u32_at(code.bytes, from.end);
    rewrite_arms::plan_insert(from.value, k, from.end + bytes_field::WORD, parts)
}

// What is to be done with the dest of an instruction.
fn plan(turn: Turn, p: Spot, parts: Parts) -> Plan
    ensures { StepPlanned turn.entry.code turn.entry.settings turn.entry.slot turn.entry.fold p parts.entry result }
{
    let Turn { code, slot, .. } = turn;
    let Some(kind) = bytes_index::instruction_kind(code.facts, slot) else {
        return Plan::Keep;
    };
    if !active(turn.settings, turn.fold, kind) {
        return Plan::Keep;
    }
    match kind {
        Kind::Assign => assign(code, p, parts),
        Kind::Load => load(code, turn.settings.edition, slot, p, parts),
        Kind::MakeTuple | Kind::MakeFixedArray => Plan::Values,
        Kind::ExtractTupleElement => extract_element(code, p, parts),
        Kind::MakeStruct => {
            rewrite_arms::plan_struct(code, p.dest, bytes_operands::last_type(code.bytes, p.end))
        }
        Kind::ExtractStructField => extract_field(code, p, parts),
        Kind::InsertField => insert_field(code, p, parts),
        Kind::InsertTuple => insert_element(code, p, parts),
        _ => Plan::Keep,
    }
}

// A build of a tuple or an array: its dest gets the values of its list.
fn build_values(
    code: Code,
    p: Spot,
    tracked: &mut [bool],
    rows: &mut [u16],
    used: usize,
) -> Used<Action>
    requires { used < used_below }
    ensures used_bound { result.used ≤ used + row_most }
    ensures values_built { ValuesBuilt code.entry p tracked.old rows.old used
        tracked.new rows.new result }
{
    let d = p.dest;
    let to = rewrite_parts::track_values(tracked, rows, used, d, rewrite_arms::listed(code, p), 0);
    Used {
        value: Action::Track {
            dest: d,
            what: Counted::Build,
        },
        used: to,
    }
}

// Carries a plan out: what it gives the dest goes into the rows.
fn carry_out(
    plan: Plan,
    code: Code,
    p: Spot,
    tracked: &mut [bool],
    rows: &mut [u16],
    used: usize,
) -> Used<Action>
    requires { used < used_below }
    ensures used_bound { result.used ≤ used + row_most }
    ensures carried_out { CarriedOut plan code.entry p tracked.old rows.old used
        tracked.new rows.new result }
{
    let d = p.dest;
    match plan {
        Plan::Keep => Used {
            value: Action::Keep,
            used,
        },
        Plan::Share { source: v, what: c } => {
            rewrite_parts::share(tracked, rows, d, v);
            Used {
                value: Action::Track { dest: d, what: c },
                used,
            }
        }
        Plan::Assign { place, named: t } => Used {
            value: Action::Assign {
                dest: d,
                place,
                named: t,
            },
            used,
        },
        Plan::Replace {
            source: v,
            part: k,
            place,
        } => {
            let to = rewrite_parts::replace(tracked, rows, used, d, v, k, place);
            Used {
                value: Action::Track {
                    dest: d,
                    what: Counted::Insert,
                },
                used: to,
            }
        }
        Plan::Values => build_values(code, p, tracked, rows, used),
        Plan::Fields(t) => rewrite_arms::build_fields(code, p, t, tracked, rows, used),
    }
}

// What becomes of an instruction that is no Call and no Store.
pub fn decide(turn: Turn, tracked: &mut [bool], rows: &mut [u16], used: usize) -> Used<Action>
    requires { used < used_below }
    ensures used_bound { result.used ≤ used + row_most }
    ensures step_decided { StepDecided turn.entry.code turn.entry.settings turn.entry.slot turn.entry.fold
        tracked.old rows.old used tracked.new rows.new result }
{
    let p = find_spot(turn.code, turn.slot);
    let parts = Parts { tracked, rows };
    let what = plan(turn, p, parts);
    carry_out(what, turn.code, p, tracked, rows, used)
}
