// Writers. None asks for room: a byte past the end is counted and not stored, so that one code path sizes and writes.
// (The bounds of `to` halve from writer to writer, specs/Written: a place with its bound in the type would change its type at each call.)
#![tactic(auto)]

ghost use Rattle.std.specs.Prelude.{◌≡◌, [], ◌∷◌, ◌+◌, ◌<◌, ◌≤◌, length};
ghost use Rattle.std.proofs.lemmas.List.Edits.{sets};
ghost use Rattle.bytes_wire.specs.Number.{to_bytes};
ghost use Rattle.bytes_wire.specs.Value.{value_bytes};
ghost use Rattle.mir.specs.Kind.{number_of_kind};
ghost use Rattle.mir.specs.Syntax.{Assign, plain};
ghost use Rattle.bytes_field.specs.Encode.{instruction_bytes, value_id_bytes, type_id_bytes, name_id_bytes};
ghost use Rattle.bytes_emit.specs.Written.{Writes, number_room, word_room, value_room, instruction_room};

use bytes_wire::ValueKind;
use mir::kind::Kind;
use mir::{Literal, NameId, TypeId, Value, ValueId};

// The bit map of an instruction with nothing beside it.
const NO_BITS: u8 = 0;

// A number of one, two and four bytes, the lowest first. (Byte by byte, each where there is room: `copy` of the four
// would first ask whether there is room for all of them, and which part of them to copy where there is not.)
pub fn put_u8(out: &mut [u8], to: usize, b: u8)
    ensures { out.new ≡ sets out.old to (b ∷ []) }
{
    table::put(out, to, b)
}

pub fn put_u16(out: &mut [u8], to: usize, x: u16)
    requires { to < number_room }
    ensures { out.new ≡ sets out.old to (to_bytes 2 x) }
{
    let [low, high] = x.to_le_bytes();
    put_u8(out, to, low);
    put_u8(out, to + 1, high);
}

pub fn put_u32(out: &mut [u8], to: usize, x: u32)
    requires { to < word_room }
    ensures { out.new ≡ sets out.old to (to_bytes 4 x) }
{
    let [a, b, c, d] = x.to_le_bytes();
    put_u8(out, to, a);
    put_u8(out, to + 1, b);
    put_u8(out, to + 2, c);
    put_u8(out, to + 3, d);
}

// The numbers of values, types and names. (One function over a trait of the three would be longer than they are.)
pub fn put_value_id(out: &mut [u8], to: usize, v: ValueId)
    requires { to < word_room }
    ensures { out.new ≡ sets out.old to (value_id_bytes v) }
{
    put_u16(out, to, v.0);
}

pub fn put_type_id(out: &mut [u8], to: usize, t: TypeId)
    requires { to < word_room }
    ensures { out.new ≡ sets out.old to (type_id_bytes t) }
{
    put_u16(out, to, t.0);
}

pub fn put_name_id(out: &mut [u8], to: usize, n: NameId)
    requires { to < word_room }
    ensures { out.new ≡ sets out.old to (name_id_bytes n) }
{
    put_u16(out, to, n.0);
}

// Writes a literal, and returns the place behind it.
fn put_literal(out: &mut [u8], to: usize, l: Literal) -> usize
    requires { to < value_room }
    ensures { Writes (value_bytes (Value.Literal l)) out.old out.new to result }
{
    match l {
        Literal::Integer(x) => {
            put_u8(out, to, ValueKind::Integer as u8);
            put_u32(out, to + 1, x);
            to + 5
        }
        Literal::Boolean(b) => {
            put_u8(out, to, ValueKind::Boolean as u8);
            put_u8(out, to + 1, b as u8);
            to + 2
        }
        Literal::Unit => {
            put_u8(out, to, ValueKind::Unit as u8);
            to + 1
        }
    }
}

// Writes a value, and returns the place behind it.
pub fn put_value(out: &mut [u8], to: usize, x: Value) -> usize
    requires { to < value_room }
    ensures { Writes (value_bytes x) out.old out.new to result }
{
    match x {
        Value::Literal(l) => put_literal(out, to, l),
        Value::Operand(v) => {
            put_u8(out, to, ValueKind::Operand as u8);
            put_value_id(out, to + 1, v);
            to + 3
        }
        Value::Error => {
            put_u8(out, to, ValueKind::Error as u8);
            to + 1
        }
    }
}

// What an instruction without span, expression id and comment begins with: its bit map and its kind.
pub fn put_kind(out: &mut [u8], to: usize, kind: Kind)
    requires { to < instruction_room }
    ensures { out.new ≡ sets out.old to (0 ∷ number_of_kind kind ∷ []) }
{
    put_u8(out, to, NO_BITS);
    put_u8(out, to + 1, kind as u8);
}

// An Assign without span, expression id and comment; returns the place behind it.
pub fn put_assign(out: &mut [u8], to: usize, d: ValueId, x: Value, t: TypeId) -> usize
    requires { to < instruction_room }
    ensures { Writes (instruction_bytes (plain (Assign d x t))) out.old out.new to result }
{
    put_kind(out, to, Kind::Assign);
    put_value_id(out, to + 2, d);
    let at = put_value(out, to + 4, x);
    put_type_id(out, at, t);
    at + 2
}

// Copies all of `s` to the places from `to` on, where there is room for it. (One by one: by `copy_from_slice` the archive would ask its host
// for `memmove`.)
pub fn copy_whole(s: &[u8], out: &mut [u8], to: usize)
    requires { to + length s.now ≤ length out.old }
    ensures { out.new ≡ sets out.old to s.now }
{
    for i in 0..s.len() {
        out[to + i] = s[i];
    }
}

// Copies `s` to the places from `to` on, as far as there is room, and returns the place behind it.
pub fn copy(out: &mut [u8], to: usize, s: &[u8]) -> usize
    requires { (to < number_room) × (length s.now < number_room) }
    ensures { Writes s.now out.old out.new to result }
{
    let behind = to + s.len();
    if behind <= out.len() {
        copy_whole(s, out, to);
    } else if to < out.len() {
        copy_whole(&s[..out.len() - to], out, to);
    }
    behind
}
