// The kinds of types: "a u8 in `MirType` order (Felt 0 .. Unknown 10)".
ghost use Rattle.mir.specs.TypeKind.{DecodesTypeKind};

use crate::UnknownNumber;

#[derive(Clone, Copy, PartialEq, Eq, Debug)]
pub enum TypeKind {
    Felt,
    Bool,
    U32,
    Tuple,
    Struct,
    FixedArray,
    Pointer,
    Function,
    Unit,
    Error,
    Unknown,
}

impl TryFrom<u8> for TypeKind {
    type Error = UnknownNumber;

    ghost try_from_gives = { DecodesTypeKind };

    fn try_from(number: u8) -> Result<Self, UnknownNumber> {
        match number {
            0 => Ok(TypeKind::Felt),
            1 => Ok(TypeKind::Bool),
            2 => Ok(TypeKind::U32),
            3 => Ok(TypeKind::Tuple),
            4 => Ok(TypeKind::Struct),
            5 => Ok(TypeKind::FixedArray),
            6 => Ok(TypeKind::Pointer),
            7 => Ok(TypeKind::Function),
            8 => Ok(TypeKind::Unit),
            9 => Ok(TypeKind::Error),
            10 => Ok(TypeKind::Unknown),
            _ => Err(UnknownNumber),
        }
    }
}
