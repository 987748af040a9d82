// The shapes of types and values, as tables, and which types are eligible under the settings.
// (Shapes stand in tables by their numbers, as `ShapesAt` of fold/specs reads them: with a table of `Shape` each clause over one, in all
// crates that are lent it, would speak of `map number_of_shape shapes.now`, which is no plainer.)
#![tactic(auto)]

ghost use Rattle.std.specs.Prelude.{◌≡◌, ◌&&◌, get_or, leb};
ghost use Rattle.mir.specs.Lookup.{shape};
ghost use Rattle.mir.specs.Option.{as_option};
ghost use Rattle.mir.specs.Shape.{number_of_shape};
ghost use Rattle.fold.specs.Scalarizable.{is_scalarizable};
ghost use Rattle.fold_shapes.specs.Shapes.{row_shape, row_eligible, row_in, OfType, FillsShapes};

use bytes_index::{Code, Typing};
use bytes_types::layout;
use fold::Settings;
use mir::shape::Shape;
use mir::type_kind::TypeKind;
use mir::{TypeId, ValueId};

// The shape of the type whose bytes begin here.
fn row_shape(t: &[u8]) -> Shape
    ensures { number_of_shape result ≡ row_shape t.now }
{
    match bytes_types::kind_of(t) {
        Some(TypeKind::Tuple) => Shape::Tuple,
        Some(TypeKind::Struct) => Shape::Struct,
        Some(TypeKind::FixedArray) => Shape::FixedArray,
        _ => Shape::Other,
    }
}

// Whether the type whose bytes begin here is eligible: its kind is switched on, and it has at most so many parts.
fn row_eligible(t: &[u8], settings: Settings) -> bool
    ensures { result ≡ row_eligible settings t.now }
{
    let (on, size) = match bytes_types::kind_of(t) {
        Some(TypeKind::Tuple) => (
            settings.tuples,
            bytes_wire::byte_at(t, layout::TUPLE_COUNT) as u32,
        ),
        Some(TypeKind::Struct) => (settings.structs, bytes_types::field_count(t) as u32),
        Some(TypeKind::FixedArray) => (settings.tuples, bytes_wire::u32_at(t, layout::ARRAY_SIZE)),
        _ => (false, 0),
    };
    on && size <= settings.most as u32
}

// The row of a type, from its kind on; empty where there is no such type, or none.
pub fn type_row<'a>(code: Code<'a>, t: Option<TypeId>) -> &'a [u8]
    ensures { result.now ≡ row_in code.entry (as_option t) }
{
    match t {
        Some(t) if t.0 < code.bounds.types => {
            table::behind(code.bytes, bytes_lookup::type_place(code.facts, t))
        }
        _ => &[],
    }
}

// The shape of type `t`; that of any other type where there is no such type.
pub fn type_shape(code: Code, t: TypeId) -> Shape
    ensures { OfType shape code.entry t (number_of_shape result) }
{
    row_shape(type_row(code, Some(t)))
}

// Whether type `t` is eligible under the settings.
pub fn type_eligible(code: Code, t: TypeId, settings: Settings) -> bool
    ensures { OfType (is_scalarizable settings) code.entry t result }
{
    row_eligible(type_row(code, Some(t)), settings)
}

// Fills both tables for all values: the shape of each one's recorded type, and whether that type is eligible.
pub fn value_shapes(typing: Typing, settings: Settings, shapes: &mut [u8], eligible: &mut [bool])
    ensures { FillsShapes settings typing.entry shapes.old eligible.old shapes.new eligible.new }
{
    for v in 0..typing.code.bounds.next {
        let t = bytes_lookup::recorded_type(typing.recorded, ValueId(v));
        let row = type_row(typing.code, t);
        table::put(shapes, v as usize, row_shape(row) as u8);
        table::put(eligible, v as usize, row_eligible(row, settings));
    }
}
