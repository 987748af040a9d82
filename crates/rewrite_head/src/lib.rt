// Writes everything before the blocks of a rewritten routine: types, sizes and parameters as they stand in the input
// but for the next value, then the recorded types of the values there were and of the fresh ones.
#![tactic(auto)]

pub mod recorded;

ghost use Rattle.std.specs.Prelude.{◌≡◌, ◌+◌, ◌/◌, ◌%◌, ◌≤◌, ◌<◌, length, get_or, drop};
ghost use Rattle.std.proofs.Math.Option.{none};
ghost use Rattle.std.proofs.lemmas.List.Edits.{sets};
ghost use Rattle.bytes_wire.specs.Number.{to_bytes};
ghost use Rattle.bytes_field.specs.Encode.{each_bytes, option_bytes, type_id_bytes, stands};
ghost use Rattle.bytes_sections.specs.Encode.{map_number};
ghost use Rattle.bytes_emit.specs.Written.{Writes, word_room, value_room};
ghost use Rattle.mir.specs.Option.{as_option};
ghost use Rattle.rewrite_head.specs.Head.{OfRecorded, all_values, front_end, front_bytes, HeadPut, bits_below, recorded_most, head_most};
ghost use Rattle.rewrite_progress.specs.Effect.{counts_below};

use mir::{TypeId, ValueId};
pub use recorded::RecordedTypes;

// In the routine's bytes, from the end of the types on: the next value, then the counts of blocks and the entry, then the
// number of parameters, then these.
const NEXT_BYTES: usize = 2;

const PARAMETER_COUNT: usize = 6;

const PARAMETERS: usize = 7;

const PARAMETER_BYTES: usize = 2;

// How many bits of the map a byte has.
const BYTE_BITS: usize = 8;

// In what follows `v` is a place in the map: that of value v. The map's last byte may have places past the last value.

// How many values there are.
fn count(values: RecordedTypes) -> usize
    ensures { result ≡ all_values values.entry }
{
    values.next as usize + values.many as usize
}

// The recorded type of value v. A fresh type that the table does not have is 0.
fn type_of(values: RecordedTypes, v: usize) -> Option<TypeId>
    ensures { OfRecorded values.entry (λ all. as_option result ≡ get_or all v none) }
{
    let next = values.next as usize;
    if v < next {
        return bytes_lookup::recorded_type(values.old, ValueId(v as u16));
    }
    let k = v - next;
    let many = values.many as usize;
    if k < many {
        return Some(TypeId(table::number(values.fresh, k)));
    }
    None
}

// Value v's bit of the map.
fn bit_of(values: RecordedTypes, v: usize) -> u8
    ensures upper_bound { result ≤ 1 }
    ensures of_recorded { OfRecorded values.entry (λ all. result ≡ stands (get_or all v none)) }
{
    type_of(values, v).is_some() as u8
}

// The eight bits from value v on, the lowest first.
fn map_byte(values: RecordedTypes, v: usize) -> u8
    requires { v < bits_below }
    ensures { OfRecorded values.entry (λ all.
        (result ≡ map_number (drop v all) % 256) × (map_number (drop v all) / 256 ≡ map_number (drop (v + 8) all))) }
{
    let mut byte = 0;
    for k in (0..BYTE_BITS).rev() {
        byte = 2 * byte + bit_of(values, v + k);
    }
    byte
}

// The map, from `to` on; returns the place behind it.
fn put_map(out: &mut [u8], to: usize, values: RecordedTypes) -> usize
    requires { to < value_room }
    ensures value { result ≡ to + (all_values values.entry + 7) / 8 }
    ensures of_recorded { OfRecorded values.entry (λ all.
        out.new ≡ sets out.old to (to_bytes ((all_values values.entry + 7) / 8) (map_number all))) }
{
    let bytes = count(values).div_ceil(BYTE_BITS);
    for k in 0..bytes {
        let byte = map_byte(values, BYTE_BITS * k);
        bytes_emit::put_u8(out, to + k, byte);
    }
    to + bytes
}

// The recorded type of value v, where it has one; returns the place behind it.
fn put_type(out: &mut [u8], to: usize, values: RecordedTypes, v: usize) -> usize
    requires { to < word_room }
    ensures upper_bound { result ≤ to + 2 }
    ensures of_recorded { OfRecorded values.entry (λ all.
        Writes (option_bytes type_id_bytes (get_or all v none)) out.old out.new to result) }
{
    let Some(t) = type_of(values, v) else {
        return to;
    };
    bytes_emit::put_type_id(out, to, t);
    to + 2
}

// The recorded types of all values that have one, rising; returns the place behind them.
fn put_types(out: &mut [u8], to: usize, values: RecordedTypes) -> usize
    requires { to < value_room }
    ensures upper_bound { result ≤ to + recorded_most }
    ensures of_recorded { OfRecorded values.entry (λ all.
        Writes (each_bytes (option_bytes type_id_bytes) all) out.old out.new to result) }
{
    let mut p = to;
    for v in 0..count(values) {
        p = put_type(out, p, values, v);
    }
    p
}

// What stands before the map: as in the input, whose types end at `at`, but for the next value.
fn put_front(out: &mut [u8], s: &[u8], at: usize, next: u16) -> usize
    requires within { front_end s.now at ≤ length s.now }
    requires short { length s.now < counts_below }
    ensures { (result ≡ front_end s.now at)
        × (out.new ≡ sets out.old 0 (front_bytes s.now at next)) }
{
    let count = bytes_wire::byte_at(s, at + PARAMETER_COUNT);
    let end = at + PARAMETERS + PARAMETER_BYTES * (count as usize);
    let p = bytes_emit::copy(out, 0, &s[..at]);
    bytes_emit::put_u16(out, p, next);
    bytes_emit::copy(out, p + NEXT_BYTES, &s[at + NEXT_BYTES..end])
}

// Writes all of it, from the first byte of the output on; returns the place behind it. The types of the input end at `at`.
pub fn put_head(out: &mut [u8], s: &[u8], at: usize, values: RecordedTypes) -> usize
    requires within { front_end s.now at ≤ length s.now }
    requires short { length s.now < counts_below }
    ensures upper_bound { result ≤ length s.now + head_most }
    ensures head_put { HeadPut s.now at values.entry out.old out.new result }
{
    let all = count(values) as u16;
    let p = put_front(out, s, at, all);
    let q = put_map(out, p, values);
    put_types(out, q, values)
}
