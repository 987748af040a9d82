// The rebuild of an aggregate from its parts: sroa.rs 1420, `materialize`. The parts are places of values in the input; in edition 2
// some of them are rebuilt themselves, under fresh numbers.
// (Output and place stay parameters: the place moves with each thing written, and its bound, as in bytes_emit.)
#![tactic(auto)]

ghost use Rattle.std.specs.Prelude.{◌≡◌, List, [], ◌∷◌, ◌++◌, false, ◌+◌, ◌*◌, ◌≤◌, ◌<◌, length, get_or, IfOk};
ghost use Rattle.std.proofs.Math.Option.{some};
ghost use Rattle.mir.specs.Lookup.{row_of};
ghost use Rattle.std.proofs.lemmas.List.Edits.{sets};
ghost use Rattle.bytes_wire.specs.Value.{value_bytes, unit};
ghost use Rattle.mir.specs.Kind.{number_of_kind};
ghost use Rattle.mir.specs.Syntax.{InstructionKind, plain};
ghost use Rattle.bytes_field.specs.Encode.{each_bytes, value_id_bytes, field_init_bytes, instruction_bytes};
ghost use Rattle.rewrite.specs.Rebuild.{fitted, named, rebuild_at, clashes};
ghost use Rattle.rewrite_parts.specs.Rows.{most_parts, ValueAt};
ghost use Rattle.bytes_emit.specs.Written.{Writes, value_room, instruction_room, build_room};
ghost use Rattle.rewrite_build.specs.Written.{value_most, rebuild_most, rebuild_bytes, OfParts, OfPlaced, Keeps, OfFields, OfType, OfTable, Rebuilds};

use bytes_index::Code;
use bytes_types::layout;
use mir::kind::Kind;
use mir::type_kind::TypeKind;
use mir::{Literal, TypeId, Value, ValueId};
use rewrite::Fault;

// What a build begins with: no bits, its kind, what it defines and the number of its parts.
const HEAD_BYTES: usize = 5;

// Writes the value that stands at a place of the input, and returns the place behind it.
pub fn put_value_at(out: &mut [u8], to: usize, s: &[u8], at: usize, next: u16) -> usize
    requires { to < value_room }
    ensures upper_bound { result ≤ to + value_most }
    ensures writes { (x : Value) → ValueAt next s.now at x → Writes (value_bytes x) out.old out.new to result }
{
    bytes_emit::put_value(out, to, bytes_operands::value_at(s, at, next))
}

// The parts of a value that is rebuilt: the places of the routine where they stand, how many they are (a part past the places stands
// at place 0), and by part the fresh number that it has instead, or 0.
#[derive(Clone, Copy)]
pub struct Placed<'a> {
    pub code: Code<'a>,
    pub places: &'a [u16],
    pub many: usize,
    pub nums: &'a [u16],
}

// Part k: the fresh number, or what stands at its place; past the parts that there are Unit.
fn put_part(out: &mut [u8], to: usize, parts: Placed, k: u8) -> usize
    requires { to < value_room }
    ensures upper_bound { result ≤ to + value_most }
    ensures of_parts { OfPlaced parts.entry (λ xs.
        Writes (value_bytes (get_or xs k unit)) out.old out.new to result) }
{
    if parts.many <= k as usize {
        return bytes_emit::put_value(out, to, Value::Literal(Literal::Unit));
    }
    let fresh = table::number(parts.nums, k as usize);
    if fresh != 0 {
        return bytes_emit::put_value(out, to, Value::Operand(ValueId(fresh)));
    }
    let at = table::place(parts.places, k as usize);
    put_value_at(out, to, parts.code.bytes, at, parts.code.bounds.next)
}

// `want` parts: those there are, then Units.
fn put_parts(out: &mut [u8], to: usize, parts: Placed, want: u8) -> usize
    requires { to < instruction_room }
    ensures upper_bound { result ≤ to + value_most * want }
    ensures of_parts { OfPlaced parts.entry (λ xs.
        Writes (each_bytes value_bytes (fitted want xs)) out.old out.new to result) }
{
    let mut p = to;
    for i in 0..want {
        p = put_part(out, p, parts, i);
    }
    p
}

// The parts of a struct, each behind its name; `row` is the struct's type, from its kind on.
fn put_fields(out: &mut [u8], to: usize, parts: Placed, row: &[u8], want: u8) -> usize
    requires { to < instruction_room }
    ensures upper_bound { result ≤ to + 7 * want }
    ensures of_parts { OfPlaced parts.entry (λ xs. OfFields row.now want (λ fs.
        Writes (each_bytes field_init_bytes (named fs xs)) out.old out.new to result)) }
{
    let mut p = to;
    for i in 0..want {
        bytes_emit::put_name_id(out, p, bytes_types::field_name(row, i));
        p = put_part(out, p + bytes_field::ID, parts, i);
    }
    p
}

// What a Make of n parts begins with: no bits, its kind, what it defines and the count.
fn put_head(out: &mut [u8], to: usize, kind: Kind, d: ValueId, n: u8)
    requires { to < instruction_room }
    ensures { out.new ≡ sets out.old to (0 ∷ number_of_kind kind ∷ (value_id_bytes d ++ (n ∷ []))) }
{
    bytes_emit::put_kind(out, to, kind);
    bytes_emit::put_value_id(out, to + 2, d);
    bytes_emit::put_u8(out, to + 4, n);
}

// A tuple of `want` parts.
fn put_tuple(out: &mut [u8], to: usize, d: ValueId, parts: Placed, want: u8) -> usize
    requires { to < build_room }
    ensures upper_bound { result ≤ to + rebuild_most }
    ensures of_parts { OfPlaced parts.entry (λ xs.
        Writes (instruction_bytes (plain (InstructionKind.MakeTuple d (fitted want xs)))) out.old out.new to result) }
{
    put_head(out, to, Kind::MakeTuple, d, want);
    put_parts(out, to + HEAD_BYTES, parts, want)
}

// A struct of the fields of type t; `row` is that type, from its kind on.
fn put_struct(out: &mut [u8], to: usize, d: ValueId, parts: Placed, row: &[u8], t: TypeId) -> usize
    requires { to < build_room }
    ensures upper_bound { result ≤ to + rebuild_most }
    ensures of_parts { OfPlaced parts.entry (λ xs. OfFields row.now (get_or row.now 3 0) (λ fs.
        Writes (instruction_bytes (plain (InstructionKind.MakeStruct d (named fs xs) t))) out.old out.new to result)) }
{
    let want = bytes_types::field_count(row);
    put_head(out, to, Kind::MakeStruct, d, want);
    let at = put_fields(out, to + HEAD_BYTES, parts, row, want);
    bytes_emit::put_type_id(out, at, t);
    at + bytes_field::ID
}

// An array of all the parts there are, at most 255.
fn put_array(out: &mut [u8], to: usize, d: ValueId, parts: Placed, e: TypeId) -> usize
    requires { to < build_room }
    ensures upper_bound { result ≤ to + rebuild_most }
    ensures of_parts { OfPlaced parts.entry (λ xs. parts.entry.many < 256
        → Writes (instruction_bytes (plain (InstructionKind.MakeFixedArray d xs e false))) out.old out.new to result) }
{
    let n = parts.many.min(255) as u8;
    put_head(out, to, Kind::MakeFixedArray, d, n);
    let at = put_parts(out, to + HEAD_BYTES, parts, n);
    bytes_emit::put_type_id(out, at, e);
    at + bytes_field::ID
}

// Type `row`, from its kind on, is an array of another count than so many parts.
fn array_clashes(row: &[u8], many: usize) -> bool
    ensures { OfType row.now (λ T. (xs : List Value) → length xs ≡ many → result ≡ clashes xs (some T)) }
{
    match bytes_types::kind_of(row) {
        Some(TypeKind::FixedArray) => {
            many != bytes_wire::u32_at(row, layout::ARRAY_SIZE) as usize
        }
        _ => false,
    }
}

// How many of so many parts a rebuild at type `row`, from its kind on, keeps.
fn row_keeps(row: &[u8], many: u8) -> u8
    ensures upper_bound { result ≤ many }
    ensures of_type { OfType row.now (λ T. Keeps (some T) many result) }
{
    match bytes_types::kind_of(row) {
        Some(TypeKind::Tuple) => bytes_wire::byte_at(row, layout::TUPLE_COUNT).min(many),
        Some(TypeKind::Struct) => bytes_types::field_count(row).min(many),
        _ => many,
    }
}

// Writes the rebuild of d at type t; `row` is the type, from its kind on.
fn put_make(out: &mut [u8], to: usize, row: &[u8], t: TypeId, d: ValueId, parts: Placed) -> usize
    requires { to < build_room }
    ensures upper_bound { result ≤ to + rebuild_most }
    ensures of_type { OfType row.now (λ T. OfPlaced parts.entry (λ xs. parts.entry.many ≤ most_parts
        → Writes (each_bytes instruction_bytes (rebuild_at d xs t (some T))) out.old out.new to result)) }
{
    match bytes_types::kind_of(row) {
        Some(TypeKind::Tuple) => {
            let want = bytes_wire::byte_at(row, layout::TUPLE_COUNT);
            put_tuple(out, to, d, parts, want)
        }
        Some(TypeKind::Struct) => put_struct(out, to, d, parts, row, t),
        Some(TypeKind::FixedArray) => {
            let e = TypeId(bytes_wire::u16_at(row, layout::ARRAY_ELEMENT));
            put_array(out, to, d, parts, e)
        }
        _ => to,
    }
}

// Type t is an array of another count than there are parts.
pub fn clashes_at(code: Code, t: TypeId, places: &[u16]) -> bool
    ensures { OfTable code.entry t (λ τ. (xs : List Value) → length xs ≡ length places.now → result ≡ clashes xs (row_of τ (some t))) }
{
    array_clashes(code.type_row(t), places.len())
}

// How many of so many parts a rebuild at type t keeps: at a tuple or struct type no more than it has, else all.
pub fn kept_count(code: Code, t: TypeId, many: u8) -> u8
    ensures upper_bound { result ≤ many }
    ensures of_table { OfTable code.entry t (λ τ. Keeps (row_of τ (some t)) many result) }
{
    row_keeps(code.type_row(t), many)
}

// Writes the rebuild of d at type t from these parts: a type that is no aggregate has none. Returns the place behind it.
pub fn put_numbered(out: &mut [u8], to: usize, t: TypeId, d: ValueId, parts: Placed) -> usize
    requires { to < build_room }
    ensures upper_bound { result ≤ to + rebuild_most }
    ensures of_table { OfTable parts.entry.code t (λ τ. OfPlaced parts.entry (λ xs. parts.entry.many ≤ most_parts
        → Writes (rebuild_bytes τ d xs t) out.old out.new to result)) }
{
    put_make(out, to, parts.code.type_row(t), t, d, parts)
}

// Writes the rebuild of d at type t from so many parts, which stand at these places of the routine, as put_numbered does with no
// fresh numbers; an array of another count clashes. The places may end before the parts, or go on behind them.
pub fn put_rebuild(
    out: &mut [u8],
    to: usize,
    code: Code,
    t: TypeId,
    d: ValueId,
    places: &[u16],
    many: usize,
) -> Result<usize, Fault>
    requires { to < build_room }
    ensures to_bound { IfOk result (λ end. end ≤ to + rebuild_most) }
    ensures of_table { OfTable code.entry t (λ τ. OfParts code.entry places.now many (λ xs.
        many ≤ most_parts → Rebuilds τ d xs t out.old out.new to result)) }
{
    if array_clashes(code.type_row(t), many) {
        return Err(Fault::Clash);
    }
    let parts = Placed {
        code,
        places,
        many,
        nums: &[],
    };
    Ok(put_numbered(out, to, t, d, parts))
}
