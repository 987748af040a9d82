// Operations, copies and assertions; `t` are the own fields of an instruction.
// (`&` of two tests, here and in the crates beside: no test has an effect, so that `&` says what `&&` does, and the answer comes
// by one way, where with `&&` it would come by two.)
#![tactic(auto)]

ghost use Rattle.bytes_field.specs.Decode.{assign_of, unary_of, binary_of, cast_of, heap_alloc_of, assert_eq_of};
ghost use Rattle.shelf_field.specs.Asked.{Judged};
ghost use Rattle.shelf_plain.specs.Scalars.{Scalars};

use bytes_index::Typing;

// Where the dest and the value behind it stand; in an operation they stand behind its number.
const DEST: usize = 0;

const SOURCE: usize = 2;

const RESULT: usize = 1;

const OPERAND: usize = 3;

// An Assign: the dest and the source have the type that is named.
pub fn assign(typing: Typing, t: &[u8]) -> bool
    ensures { Judged assign_of typing.entry t.now result }
{
    let y = shelf_field::type_at(t, typing.code.bounds, bytes_operands::value_end(t, SOURCE));
    let dest = shelf_field::id_has(typing, t, DEST, y);
    let source = shelf_field::value_fits(typing, t, SOURCE, y);
    dest & source
}

// A dest and a value are scalars, where they stand.
fn scalars(typing: Typing, t: &[u8], dest: usize, from: usize) -> bool
    ensures { Scalars typing.entry t.now dest from result }
{
    let made = shelf_field::id_scalar(typing, t, dest);
    let taken = shelf_field::value_scalar(typing, t, from);
    made & taken
}

// A UnaryOp gives a scalar and takes one.
pub fn unary(typing: Typing, t: &[u8]) -> bool
    ensures { Judged unary_of typing.entry t.now result }
{
    scalars(typing, t, RESULT, OPERAND)
}

// A BinaryOp gives a scalar and takes two.
pub fn binary(typing: Typing, t: &[u8]) -> bool
    ensures { Judged binary_of typing.entry t.now result }
{
    let result = shelf_field::id_scalar(typing, t, RESULT);
    let left = shelf_field::value_scalar(typing, t, OPERAND);
    let right = shelf_field::value_scalar(typing, t, bytes_operands::value_end(t, OPERAND));
    let operands = left & right;
    result & operands
}

// A Cast gives a scalar and takes one.
pub fn cast(typing: Typing, t: &[u8]) -> bool
    ensures { Judged cast_of typing.entry t.now result }
{
    scalars(typing, t, DEST, SOURCE)
}

// A HeapAllocCells gives a scalar and takes one.
pub fn heap_alloc(typing: Typing, t: &[u8]) -> bool
    ensures { Judged heap_alloc_of typing.entry t.now result }
{
    scalars(typing, t, DEST, SOURCE)
}

// The sides of an AssertEq are of equal types.
pub fn assert_eq(typing: Typing, t: &[u8]) -> bool
    ensures { Judged assert_eq_of typing.entry t.now result }
{
    let x = shelf_field::value_at(t, 0, typing.code.bounds.next);
    let y = shelf_field::value_at(t, bytes_operands::value_end(t, 0), typing.code.bounds.next);
    shelf_types::equal_types(typing, x, y)
}
