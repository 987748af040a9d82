// Shelf reason 1, "Types disagree": whether the recorded types fit what each instruction, terminator and parameter says.
#![tactic(auto)]

ghost use Rattle.std.specs.Prelude.{◌≡◌};
ghost use Rattle.mir.specs.Kind.{number_of_kind};
ghost use Rattle.mir.specs.TerminatorKind.{number_of_terminator_kind};
ghost use Rattle.bytes_field.specs.Decode.{if_of, branch_of, return_of};
ghost use Rattle.shelf.specs.Reads.{with_debug};
ghost use Rattle.shelf.specs.Lists.{every};
ghost use Rattle.shelf.specs.Agrees.{agrees, block_agrees};
ghost use Rattle.shelf_marks.specs.Tests.{OfSlot, OfBlock, OfRoutine};
ghost use Rattle.shelf_reason1.specs.Told.{OfKind, OfEnd, OfEndKind, EndAgrees, TypesAgree};

use bytes_index::{Code, Typing};
use mir::BlockId;
use mir::kind::Kind;
use mir::terminator::TerminatorKind;
use rewrite_parts::Listed;

// Where a terminator's own fields stand, and where the operands of a BranchCmp do in them.
const FIELDS: usize = 1;

const COMPARED: usize = 1;

// How far behind the type table the parameters stand, behind their count.
const PARAMETERS: usize = 6;

// An instruction of a kind, by its own fields.
fn agrees(typing: Typing, t: &[u8], kind: Kind) -> bool
    ensures { OfKind typing.entry t.now (number_of_kind kind) result }
{
    match kind {
        Kind::Assign => shelf_plain::assign(typing, t),
        Kind::UnaryOp => shelf_plain::unary(typing, t),
        Kind::BinaryOp => shelf_plain::binary(typing, t),
        Kind::Call => shelf_call::call(typing, t),
        Kind::Cast => shelf_plain::cast(typing, t),
        Kind::Load => shelf_memory::load(typing, t),
        Kind::Store => shelf_memory::store(typing, t),
        Kind::Debug => shelf_call::debug(typing, t),
        Kind::Nop => true,
        Kind::Phi => shelf_call::phi(typing, t),
        Kind::MakeTuple => shelf_build::make_tuple(typing, t),
        Kind::ExtractTupleElement => shelf_parts::extract_tuple(typing, t),
        Kind::MakeStruct => shelf_build::make_struct(typing, t),
        Kind::ExtractStructField => shelf_parts::extract_field(typing, t),
        Kind::InsertField => shelf_parts::insert_field(typing, t),
        Kind::InsertTuple => shelf_parts::insert_tuple(typing, t),
        Kind::MakeFixedArray => shelf_build::make_array(typing, t),
        Kind::AssertEq => shelf_plain::assert_eq(typing, t),
        Kind::HeapAllocCells => shelf_plain::heap_alloc(typing, t),
    }
}

// The instruction in a slot agrees with the recorded types. (A match: a closure in `is_none_or` would need a contract of its own, as without
// one nothing is known of what it answers, and with it it takes more lines than the arms.)
fn one_agrees(code: Code, slot: u16) -> bool
    ensures { OfSlot code.entry slot agrees result }
{
    let t = bytes_operands::own_fields(code.instruction(slot));
    match bytes_index::instruction_kind(code.facts, slot) {
        Some(kind) => agrees(code.typing(), t, kind),
        None => true,
    }
}

// The value of an If is a condition.
fn condition(typing: Typing, t: &[u8]) -> bool
    ensures { OfEnd typing.entry (if_of typing.entry.code.bounds t.now) result }
{
    shelf_types::is_condition(typing, shelf_field::value_at(t, 0, typing.code.bounds.next))
}

// The operands of a BranchCmp are scalars. (`&`, as of the parts of the routine below: no test has an effect, and where the types agree all
// are made anyway, so that `&` says what `&&` does, and the answer comes by one way, not by two.)
fn branch(typing: Typing, t: &[u8]) -> bool
    ensures { OfEnd typing.entry (branch_of typing.entry.code.bounds t.now) result }
{
    let left = shelf_field::value_scalar(typing, t, COMPARED);
    let right = shelf_field::value_scalar(typing, t, bytes_operands::value_end(t, COMPARED));
    left & right
}

// Each value of a Return has a recorded type or is a literal.
fn leave(typing: Typing, t: &[u8]) -> bool
    ensures { OfEnd typing.entry (return_of typing.entry.code.bounds t.now) result }
{
    shelf_list::all_known(typing, Listed::behind(t, 0))
}

// A terminator of a kind, by its own fields.
fn end_fits(typing: Typing, t: &[u8], kind: TerminatorKind) -> bool
    ensures { OfEndKind typing.entry t.now (number_of_terminator_kind kind) result }
{
    match kind {
        TerminatorKind::Jump => true,
        TerminatorKind::If => condition(typing, t),
        TerminatorKind::BranchCmp => branch(typing, t),
        TerminatorKind::Return => leave(typing, t),
        TerminatorKind::Unreachable => true,
    }
}

// The terminator in a slot agrees with them.
fn end_agrees(code: Code, slot: u16) -> bool
    ensures { EndAgrees code.entry slot result }
{
    let u = code.instruction(slot);
    let t = table::behind(u, FIELDS);
    match TerminatorKind::try_from(bytes_wire::byte_at(u, 0)) {
        Ok(kind) => end_fits(code.typing(), t, kind),
        Err(_) => true,
    }
}

// Each instruction of block `k` and its terminator agree.
fn block_agrees(code: Code, k: BlockId) -> bool
    ensures { OfBlock code.entry k.0 (block_agrees with_debug) result }
{
    if !shelf_marks::each_slot(code, k, |slot| one_agrees(code, slot)) {
        return false;
    }
    end_agrees(code, bytes_index::last_slot(code.facts, k))
}

// So do all blocks.
fn blocks_agree(code: Code) -> bool
    ensures { OfRoutine code.entry (λ τ ks. every (block_agrees with_debug τ) ks) result }
{
    shelf_marks::each_block(code, |k| block_agrees(code, k))
}

// Shelf reason 1 of a routine: its parameters stand 6 bytes behind its type table.
pub fn types_agree(code: Code) -> bool
    ensures { TypesAgree code.entry result }
{
    let typing = code.typing();
    let behind = table::number(code.facts, code.bounds.types as usize) as usize;
    let t = table::behind(code.bytes, behind + PARAMETERS);
    let known = shelf_list::all_typed(typing, Listed::behind(t, 0));
    let fit = blocks_agree(code);
    known & fit
}
