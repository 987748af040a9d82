// The builds of aggregates; `t` are the own fields of an instruction.
#![tactic(auto)]

ghost use Rattle.std.specs.Prelude.{Bool};
ghost use Rattle.bytes_field.specs.Decode.{make_tuple_of, make_array_of, make_struct_of};
ghost use Rattle.shelf_field.specs.Asked.{Judged};

use bytes_index::Typing;
use mir::TypeId;
use mir::shape::Shape;
use rewrite_parts::{COUNT, Listed};

// Where the dest stands, and how long the name of a part is.
const DEST: usize = 0;

const NAME_SIZE: u8 = bytes_field::ID as u8;

// A MakeTuple: the dest is recorded as a tuple, and the values are its parts.
pub fn make_tuple(typing: Typing, t: &[u8]) -> bool
    ensures { Judged make_tuple_of typing.entry t.now result }
{
    let y = shelf_field::id_type(typing, t, DEST);
    let shaped = shelf_field::has_shape(typing.code, y, Shape::Tuple as u8);
    let list = Listed::behind(t, COUNT);
    let all = shelf_list::parts_fit(typing, list, y);
    shaped & all
}

// A MakeFixedArray: the dest is recorded as an array of the type that is named, and the values are its parts.
pub fn make_array(typing: Typing, t: &[u8]) -> bool
    ensures { (c : Bool) → Judged (λ b seen. make_array_of b seen c) typing.entry t.now result }
{
    let y = shelf_field::id_type(typing, t, DEST);
    let list = Listed::behind(t, COUNT);
    let e = bytes_operands::values_end(t, list.at, 0, 0, list.count);
    let part = shelf_field::type_at(t, typing.code.bounds, e);
    let shaped = shelf_field::has_shape(typing.code, y, Shape::FixedArray as u8);
    let same = shelf_types::same_type(shelf_rows::part_type(typing.code, y, 0), part);
    let all = shelf_list::parts_fit(typing, list, y);
    let fit = same & all;
    shaped & fit
}

// A MakeStruct: the dest has the struct type that is named, and each of its fields is given a value that fits.
pub fn make_struct(typing: Typing, t: &[u8]) -> bool
    ensures { Judged make_struct_of typing.entry t.now result }
{
    let code = typing.code;
    let list = Listed::behind(t, COUNT);
    let e = bytes_operands::values_end(t, list.at, NAME_SIZE, 0, list.count);
    let y = shelf_field::type_at(t, code.bounds, e);
    let row = code.type_row(TypeId(bytes_wire::u16_at(t, e)));
    if !shelf_rows::has_parts(code, y, list.count as u32) {
        return false;
    }
    if !shelf_field::has_shape(code, y, Shape::Struct as u8) {
        return false;
    }
    let same = shelf_field::id_has(typing, t, DEST, y);
    let fit = shelf_list::fields_fit(typing, list, y, row);
    same & fit
}
