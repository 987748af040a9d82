// The type table of a routine.
#![tactic(auto)]

pub mod layout;

ghost use Rattle.std.specs.Prelude.{◌≡◌, List, [], Bool, ℕ, ◌+◌, ◌*◌, ◌≤◌, ◌<◌, length, get_or, drop};
ghost use Rattle.bytes_wire.specs.Parse.{map_parse, later};
ghost use Rattle.bytes_wire.specs.Number.{at16};
ghost use Rattle.mir.specs.TypeKind.{number_of_type_kind, NamesTypeKind};
ghost use Rattle.bytes_field.specs.Walk.{as_part, unit};
ghost use Rattle.bytes_row.specs.Class.{number_of_row};
ghost use Rattle.bytes_before.specs.Before.{names_at};
ghost use Rattle.bytes_types.specs.Decode.{struct_fields, struct_of, type_of, type_rows};
ghost use Rattle.bytes_types.specs.Index.{field_of, TypesRead};

use bytes_field::{Bounds, Scan};
use bytes_row::class::Class;
use bytes_row::class::Class::{Number, Type, Types};
use bytes_wire::{Cause, Refusal};
use mir::NameId;
use mir::type_kind::TypeKind;

// The fields of each kind of type, in `MirType` order. A Struct has no row: its names differ.
pub const TYPE_ROWS: [&[Class]; 11] = [
    &[], // Felt
    &[], // Bool
    &[], // U32
    &[Types], // Tuple
    &[], // Struct
    &[Type, Number], // FixedArray
    &[Type], // Pointer
    &[Types, Type], // Function
    &[], // Unit
    &[], // Error
    &[], // Unknown
];

// The row of a kind of type.
fn row_of_type(kind: TypeKind) -> &'static [Class]
    ensures told { number_of_row result.now ≡ get_or type_rows (number_of_type_kind kind) 0 }
    ensures few { length result.now ≤ 5 }
{
    TYPE_ROWS[kind as usize]
}

// The kind of the type whose bytes begin here.
pub fn kind_of(row: &[u8]) -> Option<TypeKind>
    ensures { NamesTypeKind (get_or row.now 0 0) result }
{
    TypeKind::try_from(bytes_wire::byte_at(row, 0)).ok()
}

// How many fields the struct type has whose bytes begin here.
pub fn field_count(row: &[u8]) -> u8
    ensures { result ≡ get_or row.now 3 0 }
{
    bytes_wire::byte_at(row, layout::STRUCT_COUNT)
}

// The name of field `i` of the struct type whose bytes begin here.
pub fn field_name(row: &[u8], i: u8) -> NameId
    ensures { result.0 ≡ at16 row.now (4 + 4 * i) }
{
    bytes_before::name_at(row, layout::STRUCT_NAMES, i)
}

// Field `i` of the fields that begin at `from`: a new name, then a type below the struct's own number.
fn struct_field(s: &[u8], from: usize, i: u8, own: u16) -> Result<usize, Refusal>
    requires { from + 4 * i ≤ length s.now }
    ensures { as_part result ≡ later (from + 4 * i)
        (map_parse unit (field_of own (names_at s.now from i) (drop (from + 4 * i) s.now))) }
{
    let at = from + layout::STRUCT_APART * i as usize;
    let x = bytes_wire::read_u16(&s[at..]).map_err(|e| e.behind(at))?;
    if bytes_before::name_before(s, from, i, NameId(x.value)) {
        return Err(Cause::Repeated.at(at));
    }
    let behind = at + bytes_field::ID;
    let t = bytes_wire::read_below(&s[behind..], own).map_err(|e| e.behind(behind))?;
    Ok(behind + t.size)
}

// The `count` fields that begin at `from`, one after another; `own` is the number of their struct.
// (A `try_fold` would hand each field the place that it knows by its number.)
fn struct_fields(s: &[u8], from: usize, count: u8, own: u16) -> Result<usize, Refusal>
    requires { from ≤ length s.now }
    ensures { as_part result ≡ later from (map_parse unit (struct_fields own [] count (drop from s.now))) }
{
    let mut at = from;
    for i in 0..count {
        at = struct_field(s, from, i, own)?;
    }
    Ok(at)
}

// A Struct, from its kind on.
fn struct_type(s: &[u8], most: u8, own: u16) -> Result<usize, Refusal>
    requires { 1 ≤ length s.now }
    ensures { as_part result ≡ later 1 (map_parse unit (struct_of most own (drop 1 s.now))) }
{
    bytes_wire::read_u16(&s[1..]).map_err(|e| e.behind(1))?;
    let at = layout::STRUCT_COUNT;
    let counted = table::behind(s, at);
    let count = bytes_count::list_count(counted, most).map_err(|e| e.behind(at))?;
    struct_fields(s, layout::STRUCT_NAMES, count.value, own)
}

// A type, from its kind on. Its parts stay below its own number.
pub fn read_type(s: &[u8], most: u8, own: u16) -> Result<usize, Refusal>
    ensures { as_part result ≡ map_parse unit (type_of most own s.now) }
{
    let [kind, ..] = s else {
        return Err(Cause::Truncated.at(0));
    };
    let Ok(kind) = TypeKind::try_from(*kind) else {
        return Err(Cause::Undefined.at(0));
    };
    if kind == TypeKind::Struct {
        return struct_type(s, most, own);
    }
    let b = Bounds {
        types: own,
        next: 0,
        blocks: 0,
        list: most,
        projections: 0,
    };
    let mut seen: [bool; 0] = [false; 0];
    let mut reads: [u16; 0] = [0; 0];
    let start = Scan {
        size: 1,
        reads: 0,
        late: false,
    };
    let p = bytes_row::row_behind(s, start, row_of_type(kind), 0, b, &mut seen, &mut reads)?;
    Ok(p.size)
}

// The type table, from its count on. `starts` is given each type's place, and the place behind the last.
pub fn read_types(s: &[u8], limit: u16, most: u8, starts: &mut [u16]) -> Result<usize, Refusal>
    requires { (limit ≤ 64) × (most ≤ 16) × (limit < length starts.old) }
    ensures { TypesRead limit most s.now (as_part result) starts.old starts.new }
{
    let count = bytes_count::section_count(s, limit)?;
    let mut at = count.size;
    table::set_place(starts, 0, at);
    for k in 0..count.value {
        let size = read_type(&s[at..], most, k).map_err(|e| e.behind(at))?;
        let end = at + size;
        if bytes_before::type_before(bytes_field::between(s, at, end), s, starts, k) {
            return Err(Cause::Repeated.at(at));
        }
        at = end;
        table::set_place(starts, k as usize + 1, at);
    }
    Ok(at)
}
