// Numbers, numbers of things, and values, as the byte form has them. (Readers of one, two and four bytes are three: `from_le_bytes` is of
// no trait.)
#![tactic(auto)]

pub mod value_kind;

ghost use Rattle.std.specs.Prelude.{◌≡◌, ◌+◌, ◌*◌, ◌<◌, ◌≤◌, length, get_or, IfOk};
ghost use Rattle.bytes_wire.specs.Parse.{number_of_cause, as_answer, as_parse, ok, places};
ghost use Rattle.bytes_wire.specs.Number.{from_bytes, number_of, u8_of, u16_of, u32_of, below, at16, at32};
ghost use Rattle.bytes_wire.specs.Value.{value_of};

use mir::{Literal, Value, ValueId};
pub use value_kind::ValueKind;

// Why a byte string is refused: rows 1 to 9 of document 01's table.
#[derive(Clone, Copy, PartialEq, Eq, Debug)]
pub enum Cause {
    Truncated = 1,
    TooMany,
    Undefined,
    OutOfRange,
    Repeated,
    Redefined,
    LatePhi,
    CallCounts,
    Trailing,
}

impl Cause {
    // The refusal for this cause of the field at an offset.
    pub fn at(self, offset: usize) -> Refusal
        ensures { result ≡ record { cause = self; offset = offset } }
    {
        Refusal {
            cause: self,
            offset,
        }
    }
}

// The number document 01 gives the cause. (No From: it would be as long, and have a law of its own to state.)
pub fn cause_number(c: Cause) -> u8
    ensures { result ≡ number_of_cause c }
{
    c as u8
}

// A refusal: its cause, and the offset of its field.
#[derive(Clone, Copy, PartialEq, Eq, Debug)]
pub struct Refusal {
    pub cause: Cause,
    pub offset: usize,
}

impl Refusal {
    // The same refusal, counted from `before` bytes earlier.
    pub fn behind(self, before: usize) -> Refusal
        requires { before + self.offset < places }
        ensures { result ≡ record { cause = self.cause; offset = before + self.offset } }
    {
        self.cause.at(before + self.offset)
    }
}

// What was read, and how many bytes that took.
#[derive(Clone, Copy, PartialEq, Eq, Debug)]
pub struct Read<T> {
    pub value: T,
    pub size: usize,
}

// The first N bytes.
fn first_bytes<const N: usize>(s: &[u8]) -> Result<&[u8; N], Refusal>
    ensures told { as_answer (λ bs. ok (from_bytes bs.now) N) result ≡ number_of N s.now }
    ensures long { IfOk result (λ bs. length bs.now ≤ N) }
{
    s.first_chunk().ok_or(Cause::Truncated.at(0))
}

// A number of one, two and four bytes, the lowest first.
pub fn read_u8(s: &[u8]) -> Result<Read<u8>, Refusal>
    ensures { as_parse result ≡ u8_of s.now }
{
    let bytes = first_bytes::<1>(s)?;
    Ok(Read {
        value: u8::from_le_bytes(*bytes),
        size: 1,
    })
}

pub fn read_u16(s: &[u8]) -> Result<Read<u16>, Refusal>
    ensures { as_parse result ≡ u16_of s.now }
{
    let bytes = first_bytes::<2>(s)?;
    Ok(Read {
        value: u16::from_le_bytes(*bytes),
        size: 2,
    })
}

pub fn read_u32(s: &[u8]) -> Result<Read<u32>, Refusal>
    ensures { as_parse result ≡ u32_of s.now }
{
    let bytes = first_bytes::<4>(s)?;
    Ok(Read {
        value: u32::from_le_bytes(*bytes),
        size: 4,
    })
}

// A u16 below a bound: the number of a value, a type or a block.
pub fn read_below(s: &[u8], bound: u16) -> Result<Read<u16>, Refusal>
    ensures { as_parse result ≡ below bound s.now }
{
    let x = read_u16(s)?;
    if bound <= x.value {
        return Err(Cause::OutOfRange.at(0));
    }
    Ok(x)
}

// A value, from its kind byte on.
pub fn read_value(s: &[u8], next: u16) -> Result<Read<Value>, Refusal>
    ensures { as_parse result ≡ value_of next s.now }
{
    let [kind, t @ ..] = s else {
        return Err(Cause::Truncated.at(0));
    };
    let Ok(kind) = ValueKind::try_from(*kind) else {
        return Err(Cause::Undefined.at(0));
    };
    match kind {
        ValueKind::Integer => {
            let x = read_u32(t).map_err(|e| e.behind(1))?;
            Ok(Read {
                value: Value::Literal(Literal::Integer(x.value)),
                size: 1 + x.size,
            })
        }
        ValueKind::Boolean => {
            let x = read_u8(t).map_err(|e| e.behind(1))?;
            if x.value < 2 {
                Ok(Read {
                    value: Value::Literal(Literal::Boolean(x.value == 1)),
                    size: 1 + x.size,
                })
            } else {
                Err(Cause::Undefined.at(1))
            }
        }
        ValueKind::Unit => Ok(Read {
            value: Value::Literal(Literal::Unit),
            size: 1,
        }),
        ValueKind::Operand => {
            let x = read_below(t, next).map_err(|e| e.behind(1))?;
            Ok(Read {
                value: Value::Operand(ValueId(x.value)),
                size: 1 + x.size,
            })
        }
        ValueKind::Error => Ok(Read {
            value: Value::Error,
            size: 1,
        }),
    }
}

// The byte at a place; past the end 0.
pub fn byte_at(s: &[u8], at: usize) -> u8
    ensures { result ≡ get_or s.now at 0 }
{
    table::at(s, at, 0)
}

// The u16 at a place; bytes past the end count as 0.
pub fn u16_at(s: &[u8], at: usize) -> u16
    ensures { result ≡ at16 s.now at }
{
    let t = table::behind(s, at);
    u16::from_le_bytes([byte_at(t, 0), byte_at(t, 1)])
}

// The u32 at a place; bytes past the end count as 0.
pub fn u32_at(s: &[u8], at: usize) -> u32
    ensures { result ≡ at32 s.now at }
{
    let t = table::behind(s, at);
    u32::from_le_bytes([byte_at(t, 0), byte_at(t, 1), byte_at(t, 2), byte_at(t, 3)])
}
