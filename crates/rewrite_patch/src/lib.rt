// The readings of an instruction that is kept: how many there are, which, where they stand, and fresh numbers in the places of some. What
// is replaced is an operand, so that the instruction's bytes are copied, and two bytes for each are written over.
#![tactic(auto)]

ghost use Rattle.std.specs.Prelude.{◌≡◌, ◌+◌, ◌*◌, ◌<◌, ◌≤◌, get_or};
ghost use Rattle.mir.specs.Kind.{number_of_kind};
ghost use Rattle.bytes_index.specs.Table.{kind_in};
ghost use Rattle.bytes_operands.specs.Reach.{list_reach};
ghost use Rattle.bytes_emit.specs.Written.{value_room, instruction_room};
ghost use Rattle.rewrite_patch.specs.Chunks.{put_number};
ghost use Rattle.rewrite_patch.specs.Places.{row_of, index_at, index_count, index_place, number_in, is_base};
ghost use Rattle.rewrite_patch.specs.Reach.{row_most, number_most, place_most};
ghost use Rattle.rewrite_patch.specs.Kept.{CountIn, Counts, Few, Reads, Places, NumbersPut};
ghost use Rattle.rewrite_patch.specs.Returned.{ReturnCounts, ReturnReads, ReturnPlaces, ReturnNumbersPut};

use bytes_field::ProjectionKind;
use bytes_index::Code;
use mir::kind::Kind;
use mir::{Value, ValueId};

// Where the projections' count of a Load and of a Store stands among its own fields, and a Load's base.
const LOAD_STEPS: usize = 4;

const STORE_STEPS: usize = 2;

const LOAD_BASE: usize = 2;

// The values of a Return stand behind its kind and their number.
const RETURN_COUNT: usize = 1;

const RETURN_VALUES: usize = 2;

// Readings that stand one behind another among an instruction's own fields: how many, where the first thing begins, and how many bytes
// stand before each value and how many behind it.
#[derive(Clone, Copy)]
struct Row {
    count: u8,
    first: usize,
    before: u8,
    apart: u8,
}

// The list whose count stands at a place, `before` bytes before each value.
fn list_at(t: &[u8], at: usize, before: u8) -> Row
    requires { at < place_most }
    ensures { result ≡ record { count = get_or t.now at 0; first = at + 1; before = before; apart = 0 } }
{
    Row {
        count: bytes_wire::byte_at(t, at),
        first: at + 1,
        before,
        apart: 0,
    }
}

// The readings of an instruction that is no Load and no Store: its list, or its operand fields. A Call's list stands behind its dests and
// its callee, a Debug's behind its message, a build's behind its dest; of a struct a name stands before each value. (A Phi's sources are no
// readings: it stands in front of all that is rebuilt.)
fn row_of(t: &[u8], kind: Kind) -> Row
    ensures row { result ≡ row_of t.now (number_of_kind kind) }
    ensures low { result.first ≤ row_most }
{
    match kind {
        Kind::Call => list_at(t, 3 + 2 * bytes_wire::byte_at(t, 0) as usize, 0),
        Kind::Debug => list_at(t, 4, 0),
        Kind::MakeTuple | Kind::MakeFixedArray => list_at(t, 2, 0),
        Kind::MakeStruct => list_at(t, 2, 2),
        _ => {
            let o = bytes_operands::operands_of(kind);
            Row {
                count: o.count,
                first: o.first as usize,
                before: 0,
                apart: o.apart,
            }
        }
    }
}

// Whether an Index stands at a place.
fn is_index(t: &[u8], at: usize) -> bool
    ensures { result ≡ index_at t.now at }
{
    bytes_wire::byte_at(t, at) == ProjectionKind::Index as u8
}

// How many of `k` projections from a place on are Index.
fn index_count(t: &[u8], at: usize, k: u8) -> u8
    requires { at < list_reach }
    ensures { result ≡ index_count t.now k at }
{
    let mut here = at;
    let mut count = 0;
    for i in 0..k {
        count += is_index(t, here) as u8;
        here = bytes_operands::projection_end(t, here);
    }
    count
}

// Where the value of Index `j` of `k` projections begins; behind them all where there is none.
fn index_place(t: &[u8], at: usize, k: u8, j: u8) -> usize
    requires { at < list_reach }
    ensures { (result ≡ index_place t.now k j at) × (result ≤ at + 6 * k + 1) }
{
    let mut here = at;
    let mut left = j;
    for i in 0..k {
        let index = is_index(t, here);
        if index & (left == 0) {
            return here + 1;
        }
        left = left.saturating_sub(index as u8);
        here = bytes_operands::projection_end(t, here);
    }
    here
}

// How many readings an instruction of this kind has, by its own fields.
fn count_in(t: &[u8], kind: Kind) -> u8
    ensures { CountIn t.now (number_of_kind kind) result }
{
    if kind == Kind::Load {
        let steps = bytes_wire::byte_at(t, LOAD_STEPS);
        return index_count(t, LOAD_STEPS + 1, steps).saturating_add(1);
    }
    if kind == Kind::Store {
        let steps = bytes_wire::byte_at(t, STORE_STEPS);
        return index_count(t, STORE_STEPS + 1, steps).saturating_add(1);
    }
    row_of(t, kind).count
}

// Where the number of reading `j` stands if it is an operand, among the own fields.
fn number_in(t: &[u8], kind: Kind, j: u8) -> usize
    ensures { (result ≡ number_in t.now (number_of_kind kind) j) × (result ≤ number_most) }
{
    if kind == Kind::Load {
        if j == 0 {
            return LOAD_BASE;
        }
        let steps = bytes_wire::byte_at(t, LOAD_STEPS);
        return index_place(t, LOAD_STEPS + 1, steps, j - 1) + 1;
    }
    if kind == Kind::Store {
        let steps = bytes_wire::byte_at(t, STORE_STEPS);
        return index_place(t, STORE_STEPS + 1, steps, j) + 1;
    }
    let row = row_of(t, kind);
    bytes_operands::values_end(t, row.first, row.before, row.apart, j) + row.before as usize + 1
}

// How many readings the instruction in a slot has.
pub fn reading_count(code: Code, slot: u16) -> u8
    ensures counts { Counts code.entry slot result }
    ensures few { Few code.entry slot result }
{
    let Some(kind) = bytes_index::instruction_kind(code.facts, slot) else {
        return 0;
    };
    count_in(bytes_operands::own_fields(code.instruction(slot)), kind)
}

// Where the number of reading `j` of the instruction in a slot stands if it is an operand: its two bytes, among the instruction's.
pub fn reading_place(code: Code, slot: u16, j: u8) -> usize
    ensures upper_bound { result < place_most }
    ensures places { Places code.entry slot j result }
{
    let Some(kind) = bytes_index::instruction_kind(code.facts, slot) else {
        return 0;
    };
    let s = code.instruction(slot);
    bytes_operands::fields_place(s) + number_in(bytes_operands::own_fields(s), kind, j)
}

// Whether reading `j` of the instruction in a slot is a Load's base, which has no kind byte.
fn is_base(code: Code, slot: u16, j: u8) -> bool
    ensures { result ≡ is_base (kind_in code.entry.facts.now slot) j }
{
    (bytes_index::kind(code.facts, slot) == Kind::Load as u16) & (j == 0)
}

// Reading `j` of the instruction in a slot. (A Load's base is an operand.)
pub fn reading(code: Code, slot: u16, j: u8) -> Value
    ensures { Reads code.entry slot j result }
{
    let s = code.instruction(slot);
    let place = reading_place(code, slot, j);
    if is_base(code, slot, j) {
        return Value::Operand(ValueId(bytes_wire::u16_at(s, place)));
    }
    bytes_operands::value_at(s, place.saturating_sub(1), code.bounds.next)
}

// Writes a number, where it is none that stands for no number.
fn put_number(out: &mut [u8], to: usize, n: u16)
    requires { to < value_room }
    ensures { out.new ≡ put_number out.old to n }
{
    if n != 0 {
        bytes_emit::put_u16(out, to, n);
    }
}

// The instruction in a slot stands in `out` from `to` on: the numbers that are not 0 are put in the places of its readings.
pub fn put_numbers(out: &mut [u8], to: usize, code: Code, slot: u16, nums: &[u16])
    requires { to < instruction_room }
    ensures { NumbersPut code.entry slot to nums.now out.old out.new }
{
    for j in 0..reading_count(code, slot) {
        let n = table::number(nums, j as usize);
        put_number(out, to + reading_place(code, slot, j), n);
    }
}

// How many values the Return in a slot has.
pub fn return_count(code: Code, slot: u16) -> u8
    ensures { ReturnCounts code.entry slot result }
{
    bytes_wire::byte_at(code.instruction(slot), RETURN_COUNT)
}

// Where the number of value `j` of the Return in a slot stands if it is an operand: its two bytes, among the Return's.
pub fn return_place(code: Code, slot: u16, j: u8) -> usize
    ensures upper_bound { result < place_most }
    ensures places { ReturnPlaces code.entry slot j result }
{
    bytes_operands::values_end(code.instruction(slot), RETURN_VALUES, 0, 0, j) + 1
}

// Value `j` of the Return in a slot.
pub fn return_value(code: Code, slot: u16, j: u8) -> Value
    ensures { ReturnReads code.entry slot j result }
{
    let place = return_place(code, slot, j).saturating_sub(1);
    bytes_operands::value_at(code.instruction(slot), place, code.bounds.next)
}

// The Return in a slot stands in `out` from `to` on: the numbers that are not 0 are put in the places of its values.
pub fn put_return_numbers(out: &mut [u8], to: usize, code: Code, slot: u16, nums: &[u16])
    requires { to < instruction_room }
    ensures { ReturnNumbersPut code.entry slot to nums.now out.old out.new }
{
    for j in 0..return_count(code, slot) {
        let n = table::number(nums, j as usize);
        put_number(out, to + return_place(code, slot, j), n);
    }
}
