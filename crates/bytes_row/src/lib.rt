// The readers of lists, places and rows of fields. One table of field classes drives the check, the skip and the scan of
// what is read. Each is given the bytes from its field on, and answers how many bytes it took.
// (Marks and buffer stay two parameters: of a struct with a `&mut` to each, every reader would promise by two clauses more that it still has
// both; the bytes are another tail at each call.)
#![tactic(auto)]

pub mod class;

ghost use Rattle.std.specs.Prelude.{◌≡◌, ◌<◌, List, Bool, not, length};
ghost use Rattle.bytes_wire.specs.Parse.{and_then, map_parse};
ghost use Rattle.bytes_wire.specs.Value.{value_of};
ghost use Rattle.bytes_field.specs.Walk.{walk_before, uses_value, pair_walk, times, first_of, second_of, counts};
ghost use Rattle.bytes_row.specs.Class.{number_of_list, number_of_class, number_of_digit, number_of_row};
ghost use Rattle.bytes_field.specs.Walk.{list_walk, place_walk, field_walk, row_walk, as_scan, scanned};

use bytes_field::{Bounds, Lists, Scan};
use bytes_wire::{Cause, Refusal};
use class::{Class, ListKind};

// "`BinaryOp` is a u8 0 to 25, `UnaryOp` a u8 0 to 15".
const BINARY_OPERATIONS: u8 = 26;

const UNARY_OPERATIONS: u8 = 16;

// The count is not the one asked for.
fn miscounts(count: u8, l: Lists) -> bool
    ensures { result ≡ not (counts l count) }
{
    l.exact.is_some_and(|many| many != count)
}

// A value, behind what was read.
fn then_value(s: &[u8], p: Scan, next: u16, buffer: &mut [u16]) -> Result<Scan, Refusal>
    ensures { (seen : List Bool) → as_scan result seen buffer.new ≡
        and_then s.now (scanned seen buffer.old p) (λ w t. map_parse (uses_value w) (value_of next t)) }
{
    let t = table::behind(s, p.size);
    bytes_field::further(bytes_field::read_value(t, p, next, buffer), p.size)
}

// An element, by the kind of its list.
// (A kind, and no closure that reads: one would hold marks and buffer, which are lent to be changed; and by the kind the contract says what
// is walked.)
fn read_element(
    s: &[u8],
    before: Scan,
    k: ListKind,
    b: Bounds,
    seen: &mut [bool],
    buffer: &mut [u16],
) -> Result<Scan, Refusal>
    ensures { as_scan result seen.new buffer.new ≡
        pair_walk b (first_of (number_of_list k)) (second_of (number_of_list k)) (walk_before seen.old buffer.old before) s.now }
{
    match k {
        ListKind::Values => bytes_field::read_value(s, before, b.next, buffer),
        ListKind::Types => bytes_field::read_below(s, before, b.types),
        ListKind::Dests => bytes_field::read_defined(s, before, b.next, seen),
        ListKind::Named => then_value(
            s,
            bytes_field::read_number(s, before, bytes_field::ID)?,
            b.next,
            buffer,
        ),
        ListKind::Sources => then_value(
            s,
            bytes_field::read_below(s, before, b.blocks)?,
            b.next,
            buffer,
        ),
        ListKind::Projections => bytes_field::read_projection(s, before, b.next, buffer),
    }
}

// A list: its count, then as many elements.
// (A `for`, here and in `row_behind`: the closure of a `try_fold` would hold marks and buffer, and a contract would have to say what they become.)
fn read_list(
    s: &[u8],
    before: Scan,
    l: Lists,
    k: ListKind,
    b: Bounds,
    seen: &mut [bool],
    buffer: &mut [u16],
) -> Result<Scan, Refusal>
    ensures { as_scan result seen.new buffer.new ≡
        list_walk b l (first_of (number_of_list k)) (second_of (number_of_list k)) (walk_before seen.old buffer.old before) s.now }
{
    let count = bytes_count::list_count(s, l.most)?;
    if miscounts(count.value, l) {
        return Err(Cause::CallCounts.at(0));
    }
    let mut w = Scan {
        size: count.size,
        ..before
    };
    for i in 0..count.value {
        let t = table::behind(s, w.size);
        let r = read_element(t, w, k, b, seen, buffer);
        w = bytes_field::further(r, w.size)?;
    }
    Ok(w)
}

// A place: its base, then its projections.
fn read_place(
    s: &[u8],
    before: Scan,
    b: Bounds,
    seen: &mut [bool],
    buffer: &mut [u16],
) -> Result<Scan, Refusal>
    ensures { as_scan result seen.new buffer.new ≡
        place_walk b (walk_before seen.old buffer.old before) s.now }
{
    let p = bytes_field::read_base(s, before, b.next, buffer)?;
    let l = Lists {
        most: b.projections,
        exact: None,
    };
    let t = table::behind(s, p.size);
    let r = read_list(t, p, l, ListKind::Projections, b, seen, buffer);
    bytes_field::further(r, p.size)
}

// One field of a row. `many` is what a Call's return types must count, the first byte of its fields.
// (A class, and no closure that reads: rows are constants, and one would hold marks and buffer, which are lent to be changed. Five arms differ
// only in the kind of list: `Class` says why.)
// (A number for any row, though only a Call's is read: an Option would have each reader of a row ask whether it is that of a Call.)
fn read_field(
    s: &[u8],
    before: Scan,
    c: Class,
    many: u8,
    b: Bounds,
    seen: &mut [bool],
    buffer: &mut [u16],
) -> Result<Scan, Refusal>
    ensures { as_scan result seen.new buffer.new ≡
        field_walk b many (number_of_class c) (walk_before seen.old buffer.old before) s.now }
{
    let any = Lists {
        most: b.list,
        exact: None,
    };
    let just = Lists {
        exact: Some(many),
        ..any
    };
    match c {
        Class::Dest => bytes_field::read_defined(s, before, b.next, seen),
        Class::Value => bytes_field::read_value(s, before, b.next, buffer),
        Class::Type => bytes_field::read_below(s, before, b.types),
        Class::Name => bytes_field::read_number(s, before, bytes_field::ID),
        Class::Number => bytes_field::read_number(s, before, bytes_field::WORD),
        Class::Block => bytes_field::read_below(s, before, b.blocks),
        Class::Place => read_place(s, before, b, seen, buffer),
        Class::Binary => bytes_field::read_operation(s, before, BINARY_OPERATIONS),
        Class::Unary => bytes_field::read_operation(s, before, UNARY_OPERATIONS),
        Class::Values => read_list(s, before, any, ListKind::Values, b, seen, buffer),
        Class::Types => read_list(s, before, any, ListKind::Types, b, seen, buffer),
        Class::Dests => read_list(s, before, any, ListKind::Dests, b, seen, buffer),
        Class::Named => read_list(s, before, any, ListKind::Named, b, seen, buffer),
        Class::Sources => read_list(s, before, any, ListKind::Sources, b, seen, buffer),
        Class::Returns => read_list(s, before, just, ListKind::Types, b, seen, buffer),
    }
}

// A row behind what was read: its fields, one after another.
pub fn row_behind(
    s: &[u8],
    p: Scan,
    row: &[Class],
    many: u8,
    b: Bounds,
    seen: &mut [bool],
    buffer: &mut [u16],
) -> Result<Scan, Refusal>
    ensures { as_scan result seen.new buffer.new ≡
        and_then s.now (scanned seen.old buffer.old p) (λ w t. row_walk b many (length row.now) (number_of_row row.now) w t) }
{
    let mut w = p;
    for c in row {
        let t = table::behind(s, w.size);
        let r = read_field(t, w, *c, many, b, seen, buffer);
        w = bytes_field::further(r, w.size)?;
    }
    Ok(w)
}

// The class that a digit of a row's number says; 0 says none.
fn class_of(digit: u32) -> Option<Class>
    requires { digit < 16 }
    ensures { number_of_digit result ≡ digit }
{
    match digit {
        0 => None,
        1 => Some(Class::Dest),
        2 => Some(Class::Value),
        3 => Some(Class::Type),
        4 => Some(Class::Name),
        5 => Some(Class::Number),
        6 => Some(Class::Block),
        7 => Some(Class::Place),
        8 => Some(Class::Binary),
        9 => Some(Class::Unary),
        10 => Some(Class::Values),
        11 => Some(Class::Types),
        12 => Some(Class::Dests),
        13 => Some(Class::Named),
        14 => Some(Class::Sources),
        _ => Some(Class::Returns),
    }
}

// The field that a digit says, behind what was read; 0 reads nothing.
fn digit_behind(
    s: &[u8],
    p: Scan,
    digit: u32,
    many: u8,
    b: Bounds,
    seen: &mut [bool],
    buffer: &mut [u16],
) -> Result<Scan, Refusal>
    requires { digit < 16 }
    ensures { as_scan result seen.new buffer.new ≡
        and_then s.now (scanned seen.old buffer.old p) (λ w t. field_walk b many digit w t) }
{
    match class_of(digit) {
        None => Ok(p),
        Some(c) => {
            let t = table::behind(s, p.size);
            bytes_field::further(read_field(t, p, c, many, b, seen, buffer), p.size)
        }
    }
}

// A row that is given as a number, behind what another reader answered: its five lowest hexadecimal digits are the classes of its fields, the
// first field's the lowest. (For callers outside the pass, whose own readers have the good answer in hand.)
pub fn then_row(
    s: &[u8],
    p: Result<Scan, Refusal>,
    row: u32,
    many: u8,
    b: Bounds,
    seen: &mut [bool],
    buffer: &mut [u16],
) -> Result<Scan, Refusal>
    ensures { as_scan result seen.new buffer.new ≡
        and_then s.now (as_scan p seen.old buffer.old) (λ w t. row_walk b many 5 row w t) }
{
    let mut w = p?;
    let mut left = row;
    for _ in 0..5u8 {
        w = digit_behind(s, w, left % 16, many, b, seen, buffer)?;
        left /= 16;
    }
    Ok(w)
}
