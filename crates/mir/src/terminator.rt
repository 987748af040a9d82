// The kinds of terminators: "a u8 0 to 4 in declared order".
ghost use Rattle.mir.specs.TerminatorKind.{DecodesTerminatorKind};

use crate::UnknownNumber;

#[derive(Clone, Copy, PartialEq, Eq, Debug)]
pub enum TerminatorKind {
    Jump,
    If,
    BranchCmp,
    Return,
    Unreachable,
}

impl TryFrom<u8> for TerminatorKind {
    type Error = UnknownNumber;

    ghost try_from_gives = { DecodesTerminatorKind };

    fn try_from(number: u8) -> Result<Self, UnknownNumber> {
        match number {
            0 => Ok(TerminatorKind::Jump),
            1 => Ok(TerminatorKind::If),
            2 => Ok(TerminatorKind::BranchCmp),
            3 => Ok(TerminatorKind::Return),
            4 => Ok(TerminatorKind::Unreachable),
            _ => Err(UnknownNumber),
        }
    }
}
