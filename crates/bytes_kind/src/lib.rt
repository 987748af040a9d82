// The kinds of instructions and terminators: the row of fields of each, and when a Phi is late.
#![tactic(auto)]

ghost use Rattle.std.specs.Prelude.{◌≡◌, ◌≤◌, List, Bool, ℕ, get_or, length};
ghost use Rattle.mir.specs.Kind.{number_of_kind};
ghost use Rattle.mir.specs.TerminatorKind.{number_of_terminator_kind};
ghost use Rattle.bytes_wire.specs.Parse.{map_parse};
ghost use Rattle.bytes_field.specs.Walk.{rows, terminator_rows, as_scan, scanned};
ghost use Rattle.bytes_kind.specs.Late.{late_behind};
ghost use Rattle.bytes_row.specs.Class.{number_of_row};

use bytes_field::Scan;
use bytes_row::class::Class;
use bytes_row::class::Class::{
    Binary, Block, Dest, Dests, Name, Named, Number, Place, Returns, Sources, Type, Types, Unary,
    Value, Values,
};
use bytes_wire::Refusal;
use mir::kind::Kind;
use mir::terminator::TerminatorKind;

// The fields of each kind of instruction as declared, in `InstructionKind` order.
const ROWS: [&[Class]; 19] = [
    &[Dest, Value, Type], // Assign
    &[Unary, Dest, Value], // UnaryOp
    &[Binary, Dest, Value, Value], // BinaryOp
    &[Dests, Name, Values, Types, Returns], // Call
    &[Dest, Value, Type, Type], // Cast
    &[Dest, Place, Type], // Load
    &[Place, Value, Type], // Store
    &[Number, Values], // Debug
    &[], // Nop
    &[Dest, Type, Sources], // Phi
    &[Dest, Values], // MakeTuple
    &[Dest, Value, Number, Type], // ExtractTupleElement
    &[Dest, Named, Type], // MakeStruct
    &[Dest, Value, Name, Type], // ExtractStructField
    &[Dest, Value, Name, Value, Type], // InsertField
    &[Dest, Value, Number, Value, Type], // InsertTuple
    &[Dest, Values, Type], // MakeFixedArray
    &[Value, Value], // AssertEq
    &[Dest, Value], // HeapAllocCells
];

// Jump, If, BranchCmp, Return, Unreachable.
const TERMINATOR_ROWS: [&[Class]; 5] = [
    &[Block],
    &[Value, Block, Block],
    &[Binary, Value, Value, Block, Block],
    &[Values],
    &[],
];

// The fields of a kind of instruction. (It, `row_of_end` and `row_of_type` of bytes_types are three of one line each: a trait of kinds that have
// a row, with its three impls, would be longer.)
pub fn row_of_kind(kind: Kind) -> &'static [Class]
    ensures told { number_of_row result.now ≡ get_or rows (number_of_kind kind) 0 }
    ensures few { length result.now ≤ 5 }
{
    ROWS[kind as usize]
}

// The fields of a kind of terminator.
pub fn row_of_end(kind: TerminatorKind) -> &'static [Class]
    ensures told { number_of_row result.now ≡ get_or terminator_rows (number_of_terminator_kind kind) 0 }
    ensures few { length result.now ≤ 5 }
{
    TERMINATOR_ROWS[kind as usize]
}

// The kind of the instruction that the bytes begin with: it stands behind the bit map. (Its number, which the table of facts is given.)
pub fn kind_at(s: &[u8]) -> u8
    ensures { result ≡ get_or s.now 1 0 }
{
    bytes_wire::byte_at(s, 1)
}

// Behind an instruction that is not a Phi, a Phi is late.
pub fn kind_behind(p: Scan, kind: Kind) -> Scan
    ensures { (seen : List Bool) (buffer : List ℕ) →
        scanned seen buffer result ≡ map_parse (λ w. late_behind (number_of_kind kind) w) (scanned seen buffer p) }
{
    Scan {
        late: p.late || kind != Kind::Phi,
        ..p
    }
}

// The same of what a reader of the instruction answered, by the kind's number; behind a number that is no kind's a Phi is late too. (For
// callers outside the pass, whose own reader has the good answer in hand.)
pub fn after_kind(p: Result<Scan, Refusal>, kind: u8) -> Result<Scan, Refusal>
    ensures { (seen : List Bool) (buffer : List ℕ) →
        as_scan result seen buffer ≡ map_parse (λ w. late_behind kind w) (as_scan p seen buffer) }
{
    let before = p?;
    Ok(Scan {
        late: before.late || kind != Kind::Phi as u8,
        ..before
    })
}
