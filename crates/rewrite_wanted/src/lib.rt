// Which values of a list are rebuilt: a Call's arguments and a Store's value at types that stand in the input, the values
// of a Return at their recorded types, in edition 2 every value at its recorded type where it is an aggregate; of these the
// tracked ones.
#![tactic(auto)]

ghost use Rattle.rewrite_wanted.specs.Asked.{WantedAt, OwnWanted, AggregateOf, RecordedOf, OwnTypeOf, TypeAsked};

use bytes_index::Code;
use mir::shape::Shape;
use mir::{TypeId, Value, ValueId};

// The types asked for. Types: those that stand in the input from a place on, and how many there are, where they are
// aggregates. Recorded: the recorded ones. Own: those of them that are aggregates. (A value and no closure: the definitions speak
// of lists with what is asked of them.)
#[derive(Clone, Copy)]
pub enum Asks {
    Types { first: usize, many: u8 },
    Recorded,
    Own,
}

// A value that is rebuilt, and at which type.
#[derive(Clone, Copy)]
pub struct Build {
    pub value: ValueId,
    pub named: TypeId,
}

// A type where it is an aggregate.
fn aggregate(code: Code, named: TypeId) -> Option<TypeId>
    ensures { AggregateOf code.entry named result }
{
    if fold_shapes::type_shape(code, named) == Shape::Other {
        return None;
    }
    Some(named)
}

// The recorded type of v.
fn recorded(code: Code, v: ValueId) -> Option<TypeId>
    ensures { RecordedOf code.entry v result }
{
    bytes_lookup::recorded_type(bytes_index::recorded(code.facts), v)
}

// The recorded type of v where it is an aggregate.
fn own_type(code: Code, v: ValueId) -> Option<TypeId>
    ensures { OwnTypeOf code.entry v result }
{
    aggregate(code, recorded(code, v)?)
}

// The type asked of value `i`, the operand v.
fn asked_type(code: Code, t: &[u8], asks: Asks, v: ValueId, i: u8) -> Option<TypeId>
    ensures { TypeAsked code.entry t.now asks v i result }
{
    match asks {
        Asks::Types { first, many } => {
            if many <= i {
                return None;
            }
            let place = bytes_field::ID * i as usize;
            let named = bytes_wire::u16_at(table::behind(t, first), place);
            aggregate(code, TypeId(named))
        }
        Asks::Recorded => recorded(code, v),
        Asks::Own => own_type(code, v),
    }
}

// What is wanted of value `i` of a list, which stands at place `at` of t: its rebuild, or nothing.
pub fn wanted_at(
    code: Code,
    t: &[u8],
    at: usize,
    tracked: &[bool],
    asks: Asks,
    i: u8,
) -> Option<Build>
    ensures { WantedAt code.entry t.now at tracked.now asks i result }
{
    let v = bytes_operands::value_at(t, at, code.bounds.next).operand()?;
    if !rewrite_parts::tracked(tracked, v) {
        return None;
    }
    let named = asked_type(code, t, asks, v, i)?;
    Some(Build { value: v, named })
}

// What is wanted of a value where its own type is asked for: its rebuild, or nothing.
pub fn own_wanted(code: Code, tracked: &[bool], x: Value) -> Option<Build>
    ensures { OwnWanted code.entry tracked.now x result }
{
    let v = x.operand()?;
    if !rewrite_parts::tracked(tracked, v) {
        return None;
    }
    let named = own_type(code, v)?;
    Some(Build { value: v, named })
}
