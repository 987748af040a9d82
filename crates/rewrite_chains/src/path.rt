// The steps of a chain of projections.
ghost use Rattle.std.specs.Prelude.{◌≡◌, List, ℕ, ◌+◌, ◌≤◌, ◌<◌, length, take};
ghost use Rattle.std.proofs.Math.Option.{some};
ghost use Rattle.mir.specs.declared.Value.{Value as AnyValue};
ghost use Rattle.mir.specs.Option.{as_option};
ghost use Rattle.mir.specs.Lookup.{Types, as_const_integer};
ghost use Rattle.fold.specs.Tables.{CodeGround};
ghost use Rattle.rewrite.specs.State.{step_index, chain};
ghost use Rattle.rewrite_parts.specs.Rows.{ValueAt, InitAt};
ghost use Rattle.rewrite_chains.specs.Chained.{LeadsTo, OfStep, OfSteps, integer_step, boolean_step, held};
ghost use Rattle.bytes_wire.specs.WellFormed.{Bytes};
ghost use Rattle.table.specs.Number.{numbers_below};

use bytes_index::Code;
use mir::{Literal, Projection, Value, ValueId};
use rewrite_parts::Parts;

// value.rs, `as_const_integer`.
#[tactic(auto, unfolding(mir::specs::Lookup::as_const_integer))]
fn const_integer(x: Value) -> Option<u32>
    ensures { as_option result ≡ as_const_integer x }
{
    match x {
        Value::Literal(Literal::Integer(k)) => Some(k),
        Value::Literal(Literal::Boolean(b)) => Some(b as u32),
        Value::Literal(Literal::Unit) | Value::Operand(_) | Value::Error => None,
    }
}

// Which part of `v` a projection names.
pub fn step_index(code: Code, v: ValueId, p: Projection) -> Option<u32>
    ensures { (τ : Types) → CodeGround code.entry τ → v.0 < code.entry.bounds.next
        → as_option result ≡ step_index τ v p }
{
    match p {
        Projection::Index(x) => const_integer(x),
        Projection::Field(name) => {
            let found = crate::value_field(code.typing(), v, name)?;
            Some(found.position)
        }
        Projection::Tuple(k) => Some(k),
    }
}

// One step of a chain: where the part of `v` that a projection names stands, where `v` is tracked and has that part.
pub fn step_part(code: Code, parts: Parts, v: ValueId, p: Projection) -> Option<usize>
    ensures { OfStep code.entry parts.entry v p (λ x. InitAt code.entry.bounds.next code.entry.bytes.now x result) }
{
    let k = step_index(code, v, p)?;
    rewrite_parts::find_part(parts, v, k)
}

// The value that stands at a place, where it is an operand.
fn operand_at(s: &[u8], at: usize, next: u16) -> Option<ValueId>
    ensures { (x : AnyValue) → Bytes s.now → next ≤ numbers_below
        → ValueAt next s.now at x → LeadsTo next (some x) result }
{
    bytes_operands::value_at(s, at, next).operand()
}

// The operand that one step leads to.
fn step_operand(code: Code, parts: Parts, v: ValueId, p: Projection) -> Option<ValueId>
    ensures { OfStep code.entry parts.entry v p (λ x. LeadsTo code.entry.bounds.next x result) }
{
    let place = step_part(code, parts, v, p)?;
    operand_at(code.bytes, place, code.bounds.next)
}

// The operand that the first `k` projections of the instruction `t` lead to, from `base` on.
fn walk(code: Code, t: &[u8], parts: Parts, base: ValueId, k: u8) -> Option<ValueId>
    ensures { OfSteps code.entry t.now parts.entry base result
        (λ ps. k ≤ length ps) (λ τ S ps. chain τ S (AnyValue.Operand base) (take k ps)) }
{
    let mut v = base;
    for i in 0..k {
        let p = bytes_operands::projection(t, code.bounds, i)?;
        v = step_operand(code, parts, v, p)?;
    }
    Some(v)
}

// The projection is an Index by an Integer literal. (`varies` of fold_scan and `is_dynamic` of fold_copies ask the same of an Index, but
// each answers in its own way for a Field, a Tuple and none: around one method two of the three would match these again.)
fn is_integer(p: Option<Projection>) -> bool
    ensures { result ≡ integer_step (as_option p) }
{
    match p {
        Some(Projection::Index(x)) => x.is_integer(),
        Some(Projection::Field(_) | Projection::Tuple(_)) | None => false,
    }
}

// The value of which the last projection, number `last`, names a part. The first one is an Integer literal.
pub fn holder(code: Code, t: &[u8], parts: Parts, base: ValueId, last: u8) -> Option<ValueId>
    ensures { OfSteps code.entry t.now parts.entry base result
        (λ ps. length ps ≡ last + 1) (λ τ S ps. held τ S base ps last) }
{
    if !is_integer(bytes_operands::projection(t, code.bounds, 0)) {
        return None;
    }
    walk(code, t, parts, base, last)
}

// The projection is an Index by a Boolean literal.
#[tactic(auto, unfolding(rewrite::specs::Step::is_boolean))]
pub fn is_boolean(p: Option<Projection>) -> bool
    ensures { result ≡ boolean_step (as_option p) }
{
    match p {
        Some(Projection::Index(Value::Literal(Literal::Boolean(_)))) => true,
        Some(Projection::Index(Value::Literal(Literal::Integer(_)))) => false,
        Some(Projection::Index(Value::Literal(Literal::Unit))) => false,
        Some(Projection::Index(Value::Operand(_))) => false,
        Some(Projection::Index(Value::Error)) => false,
        Some(Projection::Field(_)) => false,
        Some(Projection::Tuple(_)) => false,
        None => false,
    }
}
