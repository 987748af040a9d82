// A field of a struct type by its name: its position, its type and the number of fields, or that the name is absent.
#![tactic(auto)]

ghost use Rattle.std.specs.Prelude.{◌≡◌, ◌+◌, ◌*◌, get_or};
ghost use Rattle.bytes_wire.specs.Number.{at16};
ghost use Rattle.bytes_struct.specs.Fields.{first_part};
ghost use Rattle.bytes_struct.specs.Found.{first_named, FoundInRow, FoundIn};

use bytes_index::Code;
use bytes_types::layout;
use mir::type_kind::TypeKind;
use mir::{NameId, TypeId};

// What is found of a field: its position, its type, and how many fields the struct has.
#[derive(Clone, Copy)]
pub struct FoundField {
    pub position: u32,
    pub part: TypeId,
    pub fields: u8,
}

// The type of field `i` of the struct type `row`, from its kind on.
fn part(row: &[u8], i: u8) -> TypeId
    ensures { result.0 ≡ at16 row.now (first_part + 4 * i) }
{
    let at = layout::STRUCT_TYPES + layout::STRUCT_APART * i as usize;
    TypeId(bytes_wire::u16_at(row, at))
}

// The number of the first field with a name.
fn position(row: &[u8], name: NameId) -> Option<u8>
    ensures { result ≡ first_named row.now name (get_or row.now 3 0) }
{
    (0..bytes_types::field_count(row)).find(|i| name == bytes_types::field_name(row, *i))
}

// A name in the type `row`, from its kind on; absent in a type that is no struct.
fn find_in_row(row: &[u8], name: NameId) -> Option<FoundField>
    ensures { FoundInRow row.now name result }
{
    let Some(TypeKind::Struct) = bytes_types::kind_of(row) else {
        return None;
    };
    let i = position(row, name)?;
    let fields = bytes_types::field_count(row);
    Some(FoundField {
        position: i as u32,
        part: part(row, i),
        fields,
    })
}

// sroa.rs 1411, `struct_field_index`: a name in type `t` of a routine; absent where there is no such type.
pub fn find_field(code: Code, t: TypeId, name: NameId) -> Option<FoundField>
    ensures { FoundIn code.entry.bytes.now code.entry.facts.now code.entry.bounds.types t name result }
{
    if code.bounds.types <= t.0 {
        return None;
    }
    find_in_row(code.type_row(t), name)
}
