// Reads and stores of tables that ask for no room: past the end a read gives what it is told, 0 or false, and a store does nothing.
// (The reader of bytes stands in bytes_wire: byte_at.)
#![tactic(auto)]

ghost use Rattle.std.specs.Prelude.{◌≡◌, false, ◌%◌, drop, get_or, set};
ghost use Rattle.table.specs.Flags.{any_stands};
ghost use Rattle.table.specs.Number.{numbers_below};

// The element at a place; past the end `past`.
#[inline]
pub fn at<T: Copy>(l: &[T], i: usize, past: T) -> T
    ensures { result ≡ get_or l.now i past }
{
    l.get(i).copied().unwrap_or(past)
}

// Stores an element. (Tried with `get_mut`: nothing is promised of what the slice becomes, so the proof didn't close.)
#[inline]
pub fn put<T: Copy>(l: &mut [T], i: usize, x: T)
    ensures { l.new ≡ set l.old i x }
{
    if i < l.len() {
        l[i] = x;
    }
}

// What stands from a place on; nothing where that is past the end.
#[inline]
pub fn behind<T>(l: &[T], from: usize) -> &[T]
    ensures { result.now ≡ drop from l.now }
{
    &l[from.min(l.len())..]
}

// The number at a place. (It, the place and the flag at a place stand beside `at`, which they call: they fix what stands past the end.)
pub fn number(l: &[u16], i: usize) -> u16
    ensures { result ≡ get_or l.now i 0 }
{
    at(l, i, 0)
}

// The place that stands in slot `i`.
pub fn place(l: &[u16], i: usize) -> usize
    ensures { result ≡ get_or l.now i 0 }
{
    number(l, i) as usize
}

// The flag at a place.
pub fn flag(l: &[bool], i: usize) -> bool
    ensures { result ≡ get_or l.now i false }
{
    at(l, i, false)
}

// Stores a place: its lowest 16 bits, which are all of it where the bytes are short. (An `as` alone has to be proved to drop none.)
pub fn set_place(l: &mut [u16], i: usize, place: usize)
    ensures { l.new ≡ set l.old i (place % numbers_below) }
{
    put(l, i, (place % 65536) as u16)
}

// Whether a flag stands.
#[tactic(auto, unfolding(crate::specs::Flags::any_stands))]
pub fn any(l: &[bool]) -> bool
    ensures { result ≡ any_stands l.now }
{
    l.iter().any(|f| *f)
}
