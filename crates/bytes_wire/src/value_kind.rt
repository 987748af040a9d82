// The kinds of values, in `Value` order with the literals first: "a value is a u8: 0 Integer u32; 1 Boolean u8 (0, 1); 2 Unit;
// 3 Operand u16; 4 Error".
ghost use Rattle.bytes_wire.specs.ValueKind.{DecodesValueKind};

use mir::UnknownNumber;

#[derive(Clone, Copy, PartialEq, Eq, Debug)]
pub enum ValueKind {
    Integer,
    Boolean,
    Unit,
    Operand,
    Error,
}

impl TryFrom<u8> for ValueKind {
    type Error = UnknownNumber;

    ghost try_from_gives = { DecodesValueKind };

    fn try_from(number: u8) -> Result<Self, UnknownNumber> {
        match number {
            0 => Ok(ValueKind::Integer),
            1 => Ok(ValueKind::Boolean),
            2 => Ok(ValueKind::Unit),
            3 => Ok(ValueKind::Operand),
            4 => Ok(ValueKind::Error),
            _ => Err(UnknownNumber),
        }
    }
}
