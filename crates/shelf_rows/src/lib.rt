// What the row of a recorded type says, read off the type table. (A routine and a type's number stay two parameters, here, in shelf_types and
// in shelf_field: `same_type` takes types alone, `fits` and `id_has` one beside a `Typing`, and the type of a part, a field or a step is a
// number again, around which a struct of the two would have to be built anew.)
#![tactic(auto)]

ghost use Rattle.std.specs.Prelude.{◌≡◌};
ghost use Rattle.mir.specs.Lookup.{shape, row_of};
ghost use Rattle.mir.specs.Option.{as_option};
ghost use Rattle.mir.specs.Shape.{number_of_shape};
ghost use Rattle.mir.specs.TypeKind.{NamesTypeKind};
ghost use Rattle.mir.specs.Parts.{part_type, part_count, counts};
ghost use Rattle.shelf.specs.Fits.{scalar_kind};
ghost use Rattle.shelf.specs.Agrees.{pointee as pointee_of};
ghost use Rattle.shelf_rows.specs.Rows.{kind_at, type_in, row_scalar, row_part, row_counts, row_pointee};
ghost use Rattle.shelf_rows.specs.Rows.{literals_number, Typed, OfRow, TypeInRow};

use bytes_index::Code;
use bytes_types::layout;
use mir::TypeId;
use mir::shape::Shape;
use mir::type_kind::TypeKind;
use shelf::Literals;

// The kind of a row; none where there is no row. (`kind_of` of bytes_types reads 0 past the end, which is Felt.)
fn kind_at(t: &[u8]) -> Option<TypeKind>
    ensures { NamesTypeKind (kind_at t.now) result }
{
    TypeKind::try_from(*t.first()?).ok()
}

// The type whose number stands at a place.
fn type_in(t: &[u8], at: usize) -> TypeId
    ensures { result ≡ type_in t.now at }
{
    TypeId(bytes_wire::u16_at(t, at))
}

// Which literals fit the type of a row.
fn row_scalar(t: &[u8]) -> Option<Literals>
    ensures { literals_number result ≡ row_scalar t.now }
{
    match kind_at(t) {
        Some(TypeKind::Felt) => Some(Literals::Integers),
        Some(TypeKind::Bool) => Some(Literals::Booleans),
        Some(TypeKind::U32) => Some(Literals::Integers),
        Some(TypeKind::Unit) => Some(Literals::Units),
        _ => None,
    }
}

// The type of part `k` of the type of a row; none where it has no such part.
fn row_part(t: &[u8], k: u32) -> Option<TypeId>
    ensures { as_option result ≡ row_part t.now k }
{
    let (count, first, apart) = match kind_at(t) {
        Some(TypeKind::Tuple) => (
            layout::TUPLE_COUNT,
            layout::TUPLE_PARTS,
            layout::TUPLE_APART,
        ),
        Some(TypeKind::Struct) => (
            layout::STRUCT_COUNT,
            layout::STRUCT_TYPES,
            layout::STRUCT_APART,
        ),
        Some(TypeKind::FixedArray) => return Some(type_in(t, layout::ARRAY_ELEMENT)),
        _ => return None,
    };
    (k < bytes_wire::byte_at(t, count) as u32).then(|| type_in(t, first + apart * k as usize))
}

// The type of a row has parts, and `n` of them. (`n` is what is asked, no length of `t`. Not one match with `row_eligible` of fold_shapes:
// there each kind has its setting beside its count, and a row that is empty has a kind.)
fn row_counts(t: &[u8], n: u32) -> bool
    ensures { result ≡ row_counts t.now n }
{
    match kind_at(t) {
        Some(TypeKind::Tuple) => bytes_wire::byte_at(t, layout::TUPLE_COUNT) as u32 == n,
        Some(TypeKind::Struct) => bytes_types::field_count(t) as u32 == n,
        Some(TypeKind::FixedArray) => bytes_wire::u32_at(t, layout::ARRAY_SIZE) == n,
        _ => false,
    }
}

// The type that the type of a row points to, where it is a Pointer.
fn row_pointee(t: &[u8]) -> Option<TypeId>
    ensures { as_option result ≡ row_pointee t.now }
{
    (kind_at(t) == Some(TypeKind::Pointer)).then(|| type_in(t, layout::POINTED))
}

// Which literals fit a type.
pub fn scalar_kind(code: Code, number: Option<TypeId>) -> Option<Literals>
    ensures { Typed code.entry number (λ τ o. literals_number result ≡ scalar_kind (row_of τ o)) }
{
    row_scalar(fold_shapes::type_row(code, number))
}

// The shape of a type. (A match: with `map_or` the proof did not close.)
#[tactic(auto, unfolding(mir::specs::Lookup::shape, mir::specs::Lookup::row_of))]
pub fn shape_of(code: Code, number: Option<TypeId>) -> Shape
    ensures { OfRow code.entry number shape (number_of_shape result) }
{
    match number {
        Some(t) => fold_shapes::type_shape(code, t),
        None => Shape::Other,
    }
}

// The type of part `k`.
pub fn part_type(code: Code, number: Option<TypeId>, k: u32) -> Option<TypeId>
    ensures { TypeInRow code.entry number (λ row. part_type row k) result }
{
    row_part(fold_shapes::type_row(code, number), k)
}

// The type has parts, and `n` of them.
pub fn has_parts(code: Code, number: Option<TypeId>, n: u32) -> bool
    ensures { OfRow code.entry number (λ row. counts (part_count row) n) result }
{
    row_counts(fold_shapes::type_row(code, number), n)
}

// The type that a Pointer points to.
pub fn pointee(code: Code, number: Option<TypeId>) -> Option<TypeId>
    ensures { TypeInRow code.entry number pointee_of result }
{
    row_pointee(fold_shapes::type_row(code, number))
}
