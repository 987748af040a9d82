// Lookups on an accepted instruction: where its fields stand, its operand fields, its projections.
// (Bytes, a place and the next value stay three parameters, and how far the place lies a clause: each call has another place, which ends
// some bytes further, past the bound of a type that held it.)
#![tactic(auto)]

ghost use Rattle.std.specs.Prelude.{◌≡◌, List, Bool, cond, ℕ, ◌+◌, ◌-◌, ◌*◌, ◌≤◌, ◌<◌, drop, get_or};
ghost use Rattle.mir.specs.Kind.{number_of_kind, NamesKind};
ghost use Rattle.mir.specs.Option.{as_option};
ghost use Rattle.std.proofs.Math.ListN.{get_elem?};
ghost use Rattle.bytes_wire.specs.Parse.{ok};
ghost use Rattle.bytes_wire.specs.Number.{at16};
ghost use Rattle.bytes_wire.specs.Value.{value_of};
ghost use Rattle.mir.specs.declared.Value.{Value as AnyValue};
ghost use Rattle.mir.specs.declared.Projection.{Projection};
ghost use Rattle.mir.specs.Syntax.{Instruction};
ghost use Rattle.bytes_field.specs.Decode.{bit, projection_of, instruction_of};
ghost use Rattle.bytes_operands.specs.Fields.{ValueAt, operand_fields, place_steps, fields_place, value_size, value_end, projection_end};
ghost use Rattle.bytes_operands.specs.Fields.{after, value_step, operand_row, operand_first, steps_at, step_count};
ghost use Rattle.bytes_operands.specs.Reach.{value_reach, step_reach, list_reach, operand_reach};

use bytes_field::{Bounds, ProjectionKind};
use bytes_wire::ValueKind;
use mir::kind::Kind;
use mir::{NameId, Projection, TypeId, Value, ValueId};

// A kind's operand fields, lists and places aside: how many, how far the first stands behind the kind's first field,
// and how far the second stands behind the first. (A Store's one stands behind its place.)
#[derive(Clone, Copy)]
pub struct Operands {
    pub count: u8,
    pub first: u8,
    pub apart: u8,
}

// "One table tells how many operand fields each has": these three of each kind, in `InstructionKind` order. (Rows of numbers: an `Operands`
// takes five lines where a row takes one.)
pub const OPERANDS: [(u8, u8, u8); 19] = [
    (1, 2, 0), // Assign
    (1, 3, 0), // UnaryOp
    (2, 3, 0), // BinaryOp
    (0, 0, 0), // Call
    (1, 2, 0), // Cast
    (0, 0, 0), // Load
    (1, 0, 0), // Store
    (0, 0, 0), // Debug
    (0, 0, 0), // Nop
    (0, 0, 0), // Phi
    (0, 0, 0), // MakeTuple
    (1, 2, 0), // ExtractTupleElement
    (0, 0, 0), // MakeStruct
    (1, 2, 0), // ExtractStructField
    (2, 2, 2), // InsertField
    (2, 2, 4), // InsertTuple
    (0, 0, 0), // MakeFixedArray
    (2, 0, 0), // AssertEq
    (1, 2, 0), // HeapAllocCells
];

// The kind of the instruction that the bytes begin with.
fn kind_of(s: &[u8]) -> Option<Kind>
    ensures { NamesKind (get_or s.now 1 0) result }
{
    Kind::try_from(u16::from(bytes_wire::byte_at(s, 1))).ok()
}

// A kind's own.
pub fn operands_of(kind: Kind) -> Operands
    ensures { result ≡ operand_row (number_of_kind kind) }
{
    let (count, first, apart) = OPERANDS[kind as usize];
    Operands {
        count,
        first,
        apart,
    }
}

// How many bytes a field takes whose bit may stand. (A choice: to multiply by the bit would be no plainer.)
fn stands(bits: u8, k: u8, size: usize) -> usize
    requires { (k < 8) × (size < 16) }
    ensures { (result ≡ cond (bit k bits) size 0) × (result < 16) }
{
    if bytes_field::bit(bits, k) { size } else { 0 }
}

// Where an instruction's own fields begin: behind the bit map, the kind, and what stands beside it.
pub fn fields_place(s: &[u8]) -> usize
    ensures { result ≡ fields_place s.now }
{
    let bits = bytes_wire::byte_at(s, 0);
    2 + (stands(bits, 0, 8) + (stands(bits, 1, 12) + stands(bits, 2, 4)))
}

// What stands from an instruction's own fields on.
pub fn own_fields(s: &[u8]) -> &[u8]
    ensures { result.now ≡ drop (fields_place s.now) s.now }
{
    table::behind(s, fields_place(s))
}

// The value that an instruction defines, where that is the first of these own fields.
pub fn dest(own: &[u8]) -> ValueId
    ensures { result.0 ≡ at16 own.now 0 }
{
    ValueId(bytes_wire::u16_at(own, 0))
}

// The type that an instruction's last two bytes name.
pub fn last_type(s: &[u8], end: usize) -> TypeId
    ensures { 2 ≤ end → result.0 ≡ at16 s.now (end - 2) }
{
    TypeId(bytes_wire::u16_at(s, end.saturating_sub(bytes_field::ID)))
}

// How many bytes a value takes, by its kind's number. (A table by kind: it is no conversion that a trait names.)
fn value_size(kind: u8) -> usize
    ensures { (result ≡ value_size kind) × (result < 6) }
{
    match ValueKind::try_from(kind) {
        Ok(ValueKind::Integer) => 5,
        Ok(ValueKind::Boolean) => 2,
        Ok(ValueKind::Operand) => 3,
        Ok(ValueKind::Unit | ValueKind::Error) | Err(_) => 1,
    }
}

// The place behind the value that stands at a place.
pub fn value_end(t: &[u8], at: usize) -> usize
    requires { at < value_reach }
    ensures { (result ≡ value_end t.now at) × (result ≤ at + 5) }
{
    at + value_size(bytes_wire::byte_at(t, at))
}

// The value that stands at a place; Error where none does.
pub fn value_at(t: &[u8], at: usize, next: u16) -> Value
    ensures { (x : AnyValue) → ValueAt next t.now at x → result ≡ x }
{
    found_at(t, at, next).unwrap_or(Value::Error)
}

// The value that stands at a place, where one does.
fn found_at(t: &[u8], at: usize, next: u16) -> Option<Value>
    ensures { (x : AnyValue) (n : ℕ) → value_of next (drop at t.now) ≡ ok x n → result ≡ Some x }
{
    bytes_wire::read_value(table::behind(t, at), next)
        .ok()
        .map(|r| r.value)
}

// The place behind the projection that stands at a place.
pub fn projection_end(t: &[u8], at: usize) -> usize
    requires { at < step_reach }
    ensures { (result ≡ projection_end t.now at) × (result ≤ at + 6) }
{
    match ProjectionKind::try_from(bytes_wire::byte_at(t, at)) {
        Ok(ProjectionKind::Index) => value_end(t, at + 1),
        Ok(ProjectionKind::Field) => at + 3,
        Ok(ProjectionKind::Tuple) | Err(_) => at + 5,
    }
}

// The place behind `k` projections.
pub fn projections_end(t: &[u8], at: usize, k: u8) -> usize
    requires { at < list_reach }
    ensures { (result ≡ after (projection_end t.now) k at) × (result ≤ at + 6 * k) }
{
    let mut here = at;
    for i in 0..k {
        here = projection_end(t, here);
    }
    here
}

// The place behind `k` values with `before` bytes before each and `gap` behind it.
pub fn values_end(t: &[u8], at: usize, before: u8, gap: u8, k: u8) -> usize
    requires { at < list_reach }
    ensures { (result ≡ after (value_step t.now before gap) k at) × (result ≤ at + 600 * k) }
{
    let mut here = at;
    for j in 0..k {
        here = value_end(t, here + before as usize) + gap as usize;
    }
    here
}

// Where the first operand field stands among an instruction's own fields: of a Store, the value behind its place.
pub fn operand_first(t: &[u8], kind: Kind) -> usize
    ensures { (result ≡ operand_first t.now (number_of_kind kind)) × (result < operand_reach) }
{
    if kind == Kind::Store {
        return projections_end(t, 3, bytes_wire::byte_at(t, 2));
    }
    operands_of(kind).first as usize
}

// Operand field `k` of an instruction.
pub fn operand(s: &[u8], b: Bounds, k: u8) -> Option<Value>
    ensures { (seen : List Bool) (late : Bool) (i : Instruction) (n : ℕ) →
        instruction_of b seen late s.now ≡ ok i n → as_option result ≡ get_elem? (operand_fields i.kind) k }
{
    let kind = kind_of(s)?;
    let o = operands_of(kind);
    if o.count <= k {
        return None;
    }
    let t = own_fields(s);
    found_at(
        t,
        values_end(t, operand_first(t, kind), 0, o.apart, k),
        b.next,
    )
}

// The projection that stands at a place.
pub fn step_at(t: &[u8], at: usize, next: u16) -> Option<Projection>
    ensures { (p : Projection) (n : ℕ) → projection_of next (drop at t.now) ≡ ok p n → result ≡ Some p }
{
    let u = table::behind(t, at);
    match ProjectionKind::try_from(bytes_wire::byte_at(u, 0)) {
        Ok(ProjectionKind::Index) => found_at(u, 1, next).map(Projection::Index),
        Ok(ProjectionKind::Field) => Some(Projection::Field(NameId(bytes_wire::u16_at(u, 1)))),
        Ok(ProjectionKind::Tuple) | Err(_) => Some(Projection::Tuple(bytes_wire::u32_at(u, 1))),
    }
}

// Where the count of an instruction's projections stands, a Load's or a Store's: no other kind is asked for. (A table by
// kind: it is no conversion that a trait names.)
fn steps_at(kind: Kind) -> usize
    ensures { (result ≡ steps_at (number_of_kind kind)) × (result < 5) }
{
    if kind == Kind::Load { 4 } else { 2 }
}

// How many projections the place of an instruction of this kind has, by its own fields.
pub fn step_count(t: &[u8], kind: Kind) -> u8
    ensures { result ≡ step_count t.now (number_of_kind kind) }
{
    match kind {
        Kind::Load | Kind::Store => bytes_wire::byte_at(t, steps_at(kind)),
        _ => 0,
    }
}

// Projection `k` of a Load's or Store's place.
pub fn projection(s: &[u8], b: Bounds, k: u8) -> Option<Projection>
    ensures { (seen : List Bool) (late : Bool) (i : Instruction) (n : ℕ) →
        instruction_of b seen late s.now ≡ ok i n → as_option result ≡ get_elem? (place_steps i.kind) k }
{
    let kind = kind_of(s)?;
    let t = own_fields(s);
    if step_count(t, kind) <= k {
        return None;
    }
    step_at(t, projections_end(t, steps_at(kind) + 1, k), b.next)
}
