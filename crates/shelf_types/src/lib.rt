// The recorded types of values, the types of fields and steps, and which values fit which types.
// (Tests of a value match its three kinds, each of which has an answer of its own: `operand` would leave a second test of the other two.)
#![tactic(auto)]

ghost use Rattle.std.specs.Prelude.{◌≡◌, length};
ghost use Rattle.bytes_wire.specs.WellFormed.{FitValue};
ghost use Rattle.mir.specs.Shape.{number_of_shape};
ghost use Rattle.shelf.specs.Fits.{literal_kind};
ghost use Rattle.bytes_struct.specs.FindField.{field_type_of};
ghost use Rattle.shelf.specs.Agrees.{is_scalar_type, is_scalar, is_index, is_condition, is_known, equal_types};
ghost use Rattle.shelf_rows.specs.Rows.{OfType, TypeInRow, literals_number};
ghost use Rattle.shelf_types.specs.Types.{shaped_part, StepTo, Noted, TypeOfValue, Same, Fits, Grounded, value_kind, OfValue, OfValues};

use bytes_index::{Code, Typing};
use mir::shape::Shape;
use mir::{Literal, NameId, Projection, TypeId, Value, ValueId};
use shelf::Literals;

// The recorded type of a value. (Beside that of bytes_lookup for its promise: of the routine that the table is of.)
pub fn recorded_type(recorded: &[u16], v: ValueId) -> Option<TypeId>
    ensures { TypeOfValue recorded.now v result }
{
    bytes_lookup::recorded_type(recorded, v)
}

// Both are types, and the same one: none is not the same as none.
#[tactic(auto, unfolding(shelf::specs::Fits::same_type))]
pub fn same_type(a: Option<TypeId>, c: Option<TypeId>) -> bool
    ensures { Same a c result }
{
    a.is_some() && a == c
}

// The type of a struct's field, by its name.
pub fn field_type(code: Code, number: Option<TypeId>, name: NameId) -> Option<TypeId>
    ensures { TypeInRow code.entry number (λ row. field_type_of row name) result }
{
    bytes_struct::find_field(code, number?, name).map(|f| f.part)
}

// The type of part `k` of a type of that shape.
pub fn shaped_part(code: Code, number: Option<TypeId>, shape: Shape, k: u32) -> Option<TypeId>
    ensures { TypeInRow code.entry number (λ row. shaped_part row (number_of_shape shape) k) result }
{
    if shelf_rows::shape_of(code, number) == shape {
        shelf_rows::part_type(code, number, k)
    } else {
        None
    }
}

// The type behind one step of a place.
pub fn step_type(code: Code, number: Option<TypeId>, p: Option<Projection>) -> Option<TypeId>
    ensures { StepTo code.entry number p result }
{
    match p? {
        Projection::Index(_) => shaped_part(code, number, Shape::FixedArray, 0),
        Projection::Field(name) => field_type(code, number, name),
        Projection::Tuple(k) => shaped_part(code, number, Shape::Tuple, k),
    }
}

// Which literals a literal is one of. (No `From`: neither type is of this crate, and the numbers that the promise speaks of are of shelf_rows,
// which stands above the crates of both.)
#[tactic(auto, unfolding(shelf::specs::Fits::literal_kind))]
fn literal_kind(l: Literal) -> Literals
    ensures { literals_number (Some result) ≡ literal_kind l }
{
    match l {
        Literal::Integer(_) => Literals::Integers,
        Literal::Boolean(_) => Literals::Booleans,
        Literal::Unit => Literals::Units,
    }
}

// The literals that fit the type of a value.
fn literals_of(typing: Typing, x: Value) -> Option<Literals>
    ensures { Grounded typing.entry x (λ τ. literals_number result ≡ value_kind τ x) }
{
    match x {
        Value::Literal(l) => Some(literal_kind(l)),
        Value::Operand(v) => shelf_rows::scalar_kind(
            typing.code,
            recorded_type(typing.recorded, v),
        ),
        Value::Error => None,
    }
}

// A value fits a type.
#[tactic(auto, unfolding(shelf::specs::Fits::fits))]
pub fn fits(typing: Typing, x: Value, number: Option<TypeId>) -> bool
    ensures { Fits typing.entry x number result }
{
    match x {
        Value::Literal(l) => Some(literal_kind(l)) == shelf_rows::scalar_kind(typing.code, number),
        Value::Operand(v) => same_type(recorded_type(typing.recorded, v), number),
        Value::Error => false,
    }
}

// A type, and no aggregate.
pub fn is_scalar_type(code: Code, number: Option<TypeId>) -> bool
    ensures { OfType code.entry number is_scalar_type result }
{
    number.is_some() && shelf_rows::shape_of(code, number) == Shape::Other
}

// A literal, or an operand recorded as no aggregate.
#[tactic(auto, unfolding(shelf::specs::Agrees::is_scalar))]
pub fn is_scalar(typing: Typing, x: Value) -> bool
    ensures { OfValue typing.entry x is_scalar result }
{
    match x {
        Value::Literal(_) => true,
        Value::Operand(v) => is_scalar_type(typing.code, recorded_type(typing.recorded, v)),
        Value::Error => false,
    }
}

// An Integer, or an operand recorded as Felt or U32.
pub fn is_index(typing: Typing, x: Value) -> bool
    ensures { OfValue typing.entry x is_index result }
{
    literals_of(typing, x) == Some(Literals::Integers)
}

// A Boolean, or an operand recorded as Bool.
#[tactic(auto, unfolding(shelf::specs::Agrees::is_condition))]
pub fn is_condition(typing: Typing, x: Value) -> bool
    ensures { OfValue typing.entry x is_condition result }
{
    literals_of(typing, x) == Some(Literals::Booleans)
}

// A literal, or an operand with a recorded type.
#[tactic(auto, using(crate::proofs::Fitted::known_type), unfolding(shelf::specs::Agrees::is_known))]
pub fn is_known(recorded: &[u16], x: Value) -> bool
    ensures { Noted recorded.now (λ τ. FitValue (length τ.recorded) x → result ≡ is_known τ x) }
{
    match x {
        Value::Literal(_) => true,
        Value::Operand(v) => recorded_type(recorded, v).is_some(),
        Value::Error => false,
    }
}

// Two values are of equal types.
#[tactic(auto, unfolding(shelf::specs::Agrees::equal_types))]
pub fn equal_types(typing: Typing, x: Value, y: Value) -> bool
    ensures { OfValues typing.entry x y equal_types result }
{
    match y {
        Value::Literal(m) => match x {
            Value::Literal(l) => literal_kind(l) == literal_kind(m),
            Value::Operand(v) => fits(typing, y, recorded_type(typing.recorded, v)),
            Value::Error => false,
        },
        Value::Operand(w) => fits(typing, x, recorded_type(typing.recorded, w)),
        Value::Error => false,
    }
}
