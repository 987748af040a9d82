// The kinds of instructions: "u8 kind in `InstructionKind` order (0 to 18)" (`kind_number` of specs/Reads).
// (TryFrom by hand, here and of the other kinds: a derive writes no ghost member, and clauses go by `try_from_gives`.)
ghost use Rattle.std.specs.Prelude.{◌≡◌};
ghost use Rattle.mir.specs.Kind.{DecodesKind, number_of_kind, build_kind};

use crate::UnknownNumber;

#[derive(Clone, Copy, PartialEq, Eq, Debug)]
pub enum Kind {
    Assign,
    UnaryOp,
    BinaryOp,
    Call,
    Cast,
    Load,
    Store,
    Debug,
    Nop,
    Phi,
    MakeTuple,
    ExtractTupleElement,
    MakeStruct,
    ExtractStructField,
    InsertField,
    InsertTuple,
    MakeFixedArray,
    AssertEq,
    HeapAllocCells,
}

impl Kind {
    // MakeTuple, MakeStruct and MakeFixedArray.
    pub fn is_build(self) -> bool
        ensures { result ≡ build_kind (number_of_kind self) }
    {
        matches!(
            self,
            Kind::MakeTuple | Kind::MakeStruct | Kind::MakeFixedArray
        )
    }
}

impl TryFrom<u16> for Kind {
    type Error = UnknownNumber;

    ghost try_from_gives = { DecodesKind };

    fn try_from(number: u16) -> Result<Self, UnknownNumber> {
        match number {
            0 => Ok(Kind::Assign),
            1 => Ok(Kind::UnaryOp),
            2 => Ok(Kind::BinaryOp),
            3 => Ok(Kind::Call),
            4 => Ok(Kind::Cast),
            5 => Ok(Kind::Load),
            6 => Ok(Kind::Store),
            7 => Ok(Kind::Debug),
            8 => Ok(Kind::Nop),
            9 => Ok(Kind::Phi),
            10 => Ok(Kind::MakeTuple),
            11 => Ok(Kind::ExtractTupleElement),
            12 => Ok(Kind::MakeStruct),
            13 => Ok(Kind::ExtractStructField),
            14 => Ok(Kind::InsertField),
            15 => Ok(Kind::InsertTuple),
            16 => Ok(Kind::MakeFixedArray),
            17 => Ok(Kind::AssertEq),
            18 => Ok(Kind::HeapAllocCells),
            _ => Err(UnknownNumber),
        }
    }
}
