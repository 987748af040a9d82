// Single fields of an instruction: what is read at a place, and tests on it. (The own fields `t` and a place in them stay two parameters:
// nearly every call has another place, and would build a struct of the two anew. The types stay beside them: they go with other bytes too,
// a list's, a projection's, a terminator's.)
#![tactic(auto)]

ghost use Rattle.std.specs.Prelude.{◌≡◌, ◌<◌, ◌≤◌, ◌+◌, List, ℕ};
ghost use Rattle.std.proofs.Math.Option.{some};
ghost use Rattle.bytes_wire.specs.WellFormed.{FitValue};
ghost use Rattle.mir.specs.declared.TypeId.{TypeId as AnyType};
ghost use Rattle.mir.specs.declared.Value.{Value as AnyValue};
ghost use Rattle.mir.specs.declared.Projection.{Projection};
ghost use Rattle.rewrite_parts.specs.Rows.{ValueAt};
ghost use Rattle.mir.specs.Lookup.{Types, recorded_type};
ghost use Rattle.rewrite.specs.Rebuild.{return_type};
ghost use Rattle.rewrite_progress.specs.Ground.{Ground};
ghost use Rattle.shelf.specs.Agrees.{is_scalar_type, is_scalar};
ghost use Rattle.shelf_rows.specs.Rows.{Is};
ghost use Rattle.shelf_field.specs.Fields.{TypeAt, StepAt};
ghost use Rattle.shelf_field.specs.Passes.{Among, Passes};
ghost use Rattle.shelf_field.specs.Asked.{OfId, IdType, IdHas, OfValueAt, OperandType, ValueFits, HasShape};

use bytes_field::Bounds;
use bytes_index::{Code, Typing};
use mir::{Projection, TypeId, Value, ValueId};
use rewrite_parts::Listed;

// The value at a place. (Beside that of bytes_operands for its promise: of a value that is there, as the shelf test asks.)
pub fn value_at(t: &[u8], at: usize, next: u16) -> Value
    ensures { (x : AnyValue) → ValueAt next t.now at x → (result ≡ x) × FitValue next x }
{
    bytes_operands::value_at(t, at, next)
}

// The type at a place; none where no type of the table is named.
pub fn type_at(t: &[u8], b: Bounds, at: usize) -> Option<TypeId>
    ensures { (y : AnyType) → TypeAt b.types t.now at y → Is result (some y) }
{
    let x = bytes_wire::u16_at(t, at);
    (x < b.types).then_some(TypeId(x))
}

// The recorded type of the value whose number stands at a place.
pub fn id_type(typing: Typing, t: &[u8], at: usize) -> Option<TypeId>
    ensures { IdType typing.entry t.now at result }
{
    shelf_types::recorded_type(typing.recorded, ValueId(bytes_wire::u16_at(t, at)))
}

// The recorded type of the value whose number stands at a place is that type.
pub fn id_has(typing: Typing, t: &[u8], at: usize, number: Option<TypeId>) -> bool
    ensures { IdHas typing.entry t.now at number result }
{
    shelf_types::same_type(id_type(typing, t, at), number)
}

// The value whose number stands at a place is recorded as a scalar.
pub fn id_scalar(typing: Typing, t: &[u8], at: usize) -> bool
    ensures { OfId typing.entry t.now at
        (λ τ d. result ≡ is_scalar_type τ (recorded_type τ d)) }
{
    shelf_types::is_scalar_type(typing.code, id_type(typing, t, at))
}

// The recorded type of an operand; none of any other value.
#[tactic(auto, unfolding(rewrite::specs::Rebuild::return_type))]
fn value_type(recorded: &[u16], x: Value) -> Option<TypeId>
    ensures { (b : Bounds) (s types : List ℕ) (τ : Types) → Ground b s types recorded.now τ
        → FitValue b.next x → Is result (return_type τ x) }
{
    shelf_types::recorded_type(recorded, x.operand()?)
}

// The recorded type of the operand at a place; none of any other value.
pub fn operand_type(typing: Typing, t: &[u8], at: usize) -> Option<TypeId>
    ensures { OperandType typing.entry t.now at result }
{
    value_type(typing.recorded, value_at(t, at, typing.code.bounds.next))
}

// The value at a place fits a type.
pub fn value_fits(typing: Typing, t: &[u8], at: usize, number: Option<TypeId>) -> bool
    ensures { ValueFits typing.entry t.now at number result }
{
    shelf_types::fits(typing, value_at(t, at, typing.code.bounds.next), number)
}

// The value at a place is a scalar.
pub fn value_scalar(typing: Typing, t: &[u8], at: usize) -> bool
    ensures { OfValueAt typing.entry t.now at
        (λ τ x. result ≡ is_scalar τ x) }
{
    shelf_types::is_scalar(typing, value_at(t, at, typing.code.bounds.next))
}

// The type is of the shape with the number `k`. (A number and no `Shape`: the promise is of every number, also of one that is no shape's.)
#[tactic(auto, using(mir::proofs::Numbers::shape_tag))]
pub fn has_shape(code: Code, number: Option<TypeId>, k: u8) -> bool
    ensures { HasShape code.entry number k result }
{
    shelf_rows::shape_of(code, number) as u8 == k
}

// The projection at a place. (Beside that of bytes_operands for its promise: of a projection that stands there, as lists of them have it,
// and not of its size too.)
pub fn step_at(t: &[u8], at: usize, next: u16) -> Option<Projection>
    ensures { (q : Projection) → StepAt next t.now at q → result ≡ Some q }
{
    bytes_operands::step_at(t, at, next)
}

// Each thing of a list passes its test, the first as number 0; `end` gives the place behind a thing. (A loop: the place goes from thing to
// thing, which the closure of an `all` would have to change.)
pub fn each_passes<E: Fn(usize) -> usize, T: Fn(u8, usize) -> bool>(
    list: Listed,
    end: E,
    test: T,
) -> bool
    requires ends { (p : ℕ) → Among list.at p → E.pre end p }
    requires short { (p q : ℕ) → Among list.at p → E.post end p q → q ≤ p + 16 }
    requires tests { (i p : ℕ) → i < list.count → Among list.at p → T.pre test i p }
    ensures { Passes (λ i p r. T.post test i p r) (λ p q. E.post end p q) list.entry.count 0 list.entry.at result }
{
    let mut here = list.at;
    for i in 0..list.count {
        if !test(i, here) {
            return false;
        }
        here = end(here);
    }
    true
}
