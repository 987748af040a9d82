// The place of a Load or a Store: the types along its projections.
// (How far a place lies at most stays a clause: each step ends some bytes further, past the bound of a type that held it.)
#![tactic(auto)]

ghost use Rattle.shelf.specs.Fits.{place_type};
ghost use Rattle.shelf.specs.Agrees.{pointed};
ghost use Rattle.shelf_field.specs.Fields.{Front, Near, Inner};
ghost use Rattle.shelf_place.specs.Places.{LeadsTo, IndexFits, IndexesFit, Reaches, PlaceFits};

use bytes_index::{Code, Typing};
use mir::shape::Shape;
use mir::{Projection, TypeId};
use rewrite_parts::Listed;

// Behind the base of a place stands the count of its projections, and behind that they. (`bytes_operands::step_count` tells it of an
// instruction, by its kind; here a place is given by where it begins, and the kind is not known.)
const COUNT: usize = bytes_field::ID;

// The type at the end of projections. (A loop, since two things go from step to step: the place and the type.)
fn end_type(code: Code, steps: Listed, number: Option<TypeId>) -> Option<TypeId>
    requires { Inner steps.at }
    ensures { LeadsTo code.entry steps.entry number place_type result }
{
    let mut here = steps.at;
    let mut there = number;
    for i in 0..steps.count {
        let step = shelf_field::step_at(steps.bytes, here, code.bounds.next);
        there = shelf_types::step_type(code, there, step);
        here = bytes_operands::projection_end(steps.bytes, here);
    }
    there
}

// Where a projection is an Index, its value can be one.
fn index_fits(typing: Typing, t: &[u8], at: usize) -> bool
    ensures { IndexFits typing.entry t.now at result }
{
    match shelf_field::step_at(t, at, typing.code.bounds.next) {
        Some(Projection::Index(x)) => shelf_types::is_index(typing, x),
        Some(Projection::Field(_)) => true,
        Some(Projection::Tuple(_)) => true,
        None => true,
    }
}

// Each Index among projections has a value that can be one.
fn indexes_fit(typing: Typing, steps: Listed) -> bool
    requires { Inner steps.at }
    ensures { IndexesFit typing.entry steps.entry result }
{
    shelf_field::each_passes(
        steps,
        |at| bytes_operands::projection_end(steps.bytes, at),
        |_, at|
            ensures { IndexFits typing.entry steps.entry.bytes.now at result }
        { index_fits(typing, steps.bytes, at) },
    )
}

// Behind a Pointer to `number`, whose first step is Index: the type at the end of projections.
#[tactic(auto, unfolding(shelf::specs::Agrees::pointed))]
fn pointed_type(code: Code, steps: Listed, number: Option<TypeId>) -> Option<TypeId>
    requires { Near steps.at }
    ensures { LeadsTo code.entry steps.entry number pointed result }
{
    if steps.count == 0 {
        return None;
    }
    match shelf_field::step_at(steps.bytes, steps.at, code.bounds.next)? {
        Projection::Index(_) => {
            let rest = Listed {
                bytes: steps.bytes,
                at: bytes_operands::projection_end(steps.bytes, steps.at),
                count: steps.count - 1,
            };
            end_type(code, rest, number)
        }
        Projection::Field(_) => None,
        Projection::Tuple(_) => None,
    }
}

// The type at the end of a place whose base is of type `base`.
fn reached_type(code: Code, base: Option<TypeId>, steps: Listed) -> Option<TypeId>
    requires { Near steps.at }
    ensures { Reaches code.entry base steps.entry result }
{
    if shelf_rows::shape_of(code, base) == Shape::Other {
        let to = shelf_rows::pointee(code, base);
        return pointed_type(code, steps, to);
    }
    end_type(code, steps, base)
}

// The place that stands at `at` leads to a type.
pub fn place_fits(typing: Typing, t: &[u8], at: usize, number: Option<TypeId>) -> bool
    requires { Front at }
    ensures { PlaceFits typing.entry t.now at number result }
{
    let steps = Listed::behind(t, at + COUNT);
    let base = shelf_field::id_type(typing, t, at);
    let there = reached_type(typing.code, base, steps);
    let same = shelf_types::same_type(there, number);
    let all = indexes_fit(typing, steps);
    same & all
}
