// The kinds of projections, in `Projection` order: "u8 0 Index value, 1 Field name, 2 Tuple index".
ghost use Rattle.bytes_field.specs.ProjectionKind.{DecodesProjectionKind};

use mir::UnknownNumber;

#[derive(Clone, Copy, PartialEq, Eq, Debug)]
pub enum ProjectionKind {
    Index,
    Field,
    Tuple,
}

impl TryFrom<u8> for ProjectionKind {
    type Error = UnknownNumber;

    ghost try_from_gives = { DecodesProjectionKind };

    fn try_from(number: u8) -> Result<Self, UnknownNumber> {
        match number {
            0 => Ok(ProjectionKind::Index),
            1 => Ok(ProjectionKind::Field),
            2 => Ok(ProjectionKind::Tuple),
            _ => Err(UnknownNumber),
        }
    }
}
