// The kinds that take a part out of an aggregate or put one in; `t` are the own fields of an instruction.
#![tactic(auto)]

ghost use Rattle.bytes_field.specs.Decode.{extract_tuple_of, extract_field_of, insert_field_of, insert_tuple_of};
ghost use Rattle.shelf_field.specs.Asked.{Judged};
ghost use Rattle.shelf_parts.specs.Parts.{TakenOut, PutIn};

use bytes_field::{ID, WORD};
use bytes_index::Typing;
use mir::shape::Shape;
use mir::{NameId, TypeId};

// Where the dest and the aggregate stand.
const DEST: usize = 0;

const AGGREGATE: usize = ID;

// A part is taken out: the dest has the type that stands at a place, and so has the part.
fn taken_out(typing: Typing, t: &[u8], at: usize, part: Option<TypeId>) -> bool
    ensures { TakenOut typing.entry t.now at part result }
{
    let y = shelf_field::type_at(t, typing.code.bounds, at);
    let same = shelf_field::id_has(typing, t, DEST, y);
    let named = shelf_types::same_type(part, y);
    same & named
}

// The value at a place is put in for a part: the dest and the old aggregate are of type `y`, the value is of the part's type.
fn put_in(typing: Typing, t: &[u8], y: Option<TypeId>, at: usize, part: Option<TypeId>) -> bool
    ensures { PutIn typing.entry t.now y at part result }
{
    let same = shelf_field::id_has(typing, t, DEST, y);
    let old = shelf_field::value_fits(typing, t, AGGREGATE, y);
    let new = shelf_field::value_fits(typing, t, at, part);
    let fit = old & new;
    same & fit
}

// An ExtractTupleElement takes the part with its index from a tuple; the dest and the part have the type that is named.
pub fn extract_tuple(typing: Typing, t: &[u8]) -> bool
    ensures { Judged extract_tuple_of typing.entry t.now result }
{
    let e = bytes_operands::value_end(t, AGGREGATE);
    let from = shelf_field::operand_type(typing, t, AGGREGATE);
    let k = bytes_wire::u32_at(t, e);
    let part = shelf_types::shaped_part(typing.code, from, Shape::Tuple, k);
    taken_out(typing, t, e + WORD, part)
}

// An ExtractStructField takes the field of its name from a struct; the dest and the field have the type that is named.
pub fn extract_field(typing: Typing, t: &[u8]) -> bool
    ensures { Judged extract_field_of typing.entry t.now result }
{
    let e = bytes_operands::value_end(t, AGGREGATE);
    let from = shelf_field::operand_type(typing, t, AGGREGATE);
    let name = NameId(bytes_wire::u16_at(t, e));
    let part = shelf_types::field_type(typing.code, from, name);
    taken_out(typing, t, e + ID, part)
}

// An InsertField: the dest and the old struct have the type that is named, the new value has that of its field.
pub fn insert_field(typing: Typing, t: &[u8]) -> bool
    ensures { Judged insert_field_of typing.entry t.now result }
{
    let e = bytes_operands::value_end(t, AGGREGATE);
    let at = e + ID;
    let y = shelf_field::type_at(t, typing.code.bounds, bytes_operands::value_end(t, at));
    let name = NameId(bytes_wire::u16_at(t, e));
    let part = shelf_types::field_type(typing.code, y, name);
    put_in(typing, t, y, at, part)
}

// An InsertTuple: the dest and the old tuple have the type that is named, the new value has that of its part.
pub fn insert_tuple(typing: Typing, t: &[u8]) -> bool
    ensures { Judged insert_tuple_of typing.entry t.now result }
{
    let e = bytes_operands::value_end(t, AGGREGATE);
    let at = e + WORD;
    let y = shelf_field::type_at(t, typing.code.bounds, bytes_operands::value_end(t, at));
    let k = bytes_wire::u32_at(t, e);
    let part = shelf_types::shaped_part(typing.code, y, Shape::Tuple, k);
    put_in(typing, t, y, at, part)
}
