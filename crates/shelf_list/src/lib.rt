// Lists of an instruction: a build's parts, a Phi's sources, a Call's arguments and dests, a struct build's fields, a Debug's values.
#![tactic(auto)]

ghost use Rattle.std.specs.Prelude.{◌≡◌, ◌<◌, ◌≤◌, ◌+◌, ◌*◌, List, ℕ};
ghost use Rattle.mir.specs.Lookup.{is_some, row_of, recorded_type};
ghost use Rattle.mir.specs.Parts.{part_type};
ghost use Rattle.bytes_operands.specs.Reach.{value_reach};
ghost use Rattle.shelf.specs.Lists.{every};
ghost use Rattle.shelf.specs.Fits.{fits, all_fit, parts_fit, arguments_fit};
ghost use Rattle.shelf.specs.Agrees.{dests_fit, is_known};
ghost use Rattle.shelf_field.specs.Asked.{ValueFits};
ghost use Rattle.shelf_field.specs.Fields.{Later, Late};
ghost use Rattle.shelf_list.specs.Lists.{ValuesAt, SourcesAt, IdsAt};
ghost use Rattle.shelf_list.specs.Asked.{OfAnyValue, IdTyped, OfEach, PartFits, AgainstType};
ghost use Rattle.shelf_list.specs.Asked.{ArgumentFits, AgainstTypes, DestFits, DestsFit, GivenFits, FieldFits, FieldsFit};

use bytes_field::ID;
use bytes_index::Typing;
use mir::TypeId;
use rewrite_parts::Listed;

// How far a source's value stands behind its block.
const SOURCE_VALUE: usize = ID;

// Each value of a list fits its part of a type.
fn all_fit(typing: Typing, list: Listed, number: Option<TypeId>) -> bool
    ensures { AgainstType typing.entry list.entry ValuesAt number
        (λ τ o xs. all_fit τ (part_type (row_of τ o)) xs) result }
{
    shelf_field::each_passes(
        list,
        |at| bytes_operands::value_end(list.bytes, at),
        |i, at|
            ensures { PartFits typing.entry list.entry.bytes.now at number i result }
        {
            let part = shelf_rows::part_type(typing.code, number, i as u32);
            shelf_field::value_fits(typing, list.bytes, at, part)
        },
    )
}

// The values of a list are the parts of a type.
pub fn parts_fit(typing: Typing, list: Listed, number: Option<TypeId>) -> bool
    ensures { AgainstType typing.entry list.entry ValuesAt number parts_fit result }
{
    let counted = shelf_rows::has_parts(typing.code, number, list.count as u32);
    let all = all_fit(typing, list, number);
    counted & all
}

// The value of each of a Phi's sources fits a type.
pub fn sources_fit(typing: Typing, list: Listed, number: Option<TypeId>) -> bool
    ensures { AgainstType typing.entry list.entry SourcesAt number
        (λ τ o xs. every (λ x. fits τ x.value o) xs) result }
{
    shelf_field::each_passes(
        list,
        |at| bytes_operands::value_end(list.bytes, at + SOURCE_VALUE),
        |_, at|
            requires { at < value_reach }
            ensures { ValueFits typing.entry list.entry.bytes.now (at + 2) number result }
        { shelf_field::value_fits(typing, list.bytes, at + SOURCE_VALUE, number) },
    )
}

// Each argument fits its parameter's type; the types stand from `parameters` on.
pub fn arguments_fit(typing: Typing, list: Listed, parameters: usize) -> bool
    requires { Later parameters }
    ensures { AgainstTypes typing.entry list.entry ValuesAt parameters arguments_fit result }
{
    shelf_field::each_passes(
        list,
        |at| bytes_operands::value_end(list.bytes, at),
        |i, at|
            requires { Later parameters }
            ensures { ArgumentFits typing.entry list.entry.bytes.now at (parameters + 2 * i) result }
        {
            let there = parameters + ID * i as usize;
            let number = shelf_field::type_at(list.bytes, typing.code.bounds, there);
            shelf_field::value_fits(typing, list.bytes, at, number)
        },
    )
}

// Each dest has its return type; the types stand from `returns` on.
pub fn dests_fit(typing: Typing, list: Listed, returns: usize) -> bool
    requires { Late returns }
    ensures { DestsFit typing.entry list.entry returns result }
{
    shelf_field::each_passes(
        list,
        |at| at + ID,
        |i, at|
            requires { Late returns }
            ensures { DestFits typing.entry list.entry.bytes.now at (returns + 2 * i) result }
        {
            let there = returns + ID * i as usize;
            let number = shelf_field::type_at(list.bytes, typing.code.bounds, there);
            shelf_field::id_has(typing, list.bytes, at, number)
        },
    )
}

// The value of a field is given, and fits. (A match: with `is_some_and` the proof did not close.)
fn given_fits(typing: Typing, t: &[u8], init: Option<usize>, number: Option<TypeId>) -> bool
    ensures { GivenFits typing.entry t.now init number result }
{
    match init {
        Some(place) => shelf_field::value_fits(typing, t, place, number),
        None => false,
    }
}

// Each field of a struct type with as many, the row `row`, is given a value that fits by the inits of a list.
pub fn fields_fit(typing: Typing, list: Listed, number: Option<TypeId>, row: &[u8]) -> bool
    ensures { FieldsFit typing.entry list.entry number row.now result }
{
    (0..list.count).all(
        |i|
            ensures { FieldFits typing.entry list.entry number row.entry.now i result }
        {
            let init = rewrite_parts::find_init(list, bytes_types::field_name(row, i));
            let part = shelf_rows::part_type(typing.code, number, i as u32);
            given_fits(typing, list.bytes, init, part)
        },
    )
}

// The value at a place has a recorded type or is a literal.
fn value_known(typing: Typing, t: &[u8], at: usize) -> bool
    ensures { OfAnyValue typing.entry t.now at is_known result }
{
    let x = shelf_field::value_at(t, at, typing.code.bounds.next);
    shelf_types::is_known(typing.recorded, x)
}

// Each of a Return's or a Debug's values has a recorded type or is a literal.
pub fn all_known(typing: Typing, list: Listed) -> bool
    ensures { OfEach typing.entry list.entry ValuesAt (λ τ xs. every (is_known τ) xs) result }
{
    shelf_field::each_passes(
        list,
        |at| bytes_operands::value_end(list.bytes, at),
        |_, at|
            ensures { OfAnyValue typing.entry list.entry.bytes.now at is_known result }
        { value_known(typing, list.bytes, at) },
    )
}

// Each parameter has a recorded type.
pub fn all_typed(typing: Typing, list: Listed) -> bool
    ensures { OfEach typing.entry list.entry IdsAt
        (λ τ ds. every (λ v. is_some (recorded_type τ v)) ds) result }
{
    shelf_field::each_passes(
        list,
        |at| at + ID,
        |_, at|
            ensures { IdTyped typing.entry list.entry.bytes.now at result }
        { shelf_field::id_type(typing, list.bytes, at).is_some() },
    )
}
