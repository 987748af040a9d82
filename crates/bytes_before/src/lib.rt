// Whether a name or a type's bytes stand before: what makes a field name or a type a repeated one.
#![tactic(auto)]

ghost use Rattle.std.specs.Prelude.{◌≡◌, ◌+◌, ◌*◌, ◌≤◌, ◌<◌, length, get_or};
ghost use Rattle.bytes_wire.specs.Number.{at16};
ghost use Rattle.bytes_wire.specs.Parse.{places};
ghost use Rattle.bytes_before.specs.Before.{has_name, names_at, same_bytes, part, among_parts};

use mir::NameId;

// How many bytes a field of a struct takes: a u16 name, a u16 type.
pub const FIELD: usize = 4;

// The name of field `i` of the fields that begin at `from`.
pub fn name_at(s: &[u8], from: usize, i: u8) -> NameId
    requires { from + 4 * i < places }
    ensures { result.0 ≡ at16 s.now (from + 4 * i) }
{
    NameId(bytes_wire::u16_at(s, from + FIELD * i as usize))
}

// The name stands among the first `i` of the fields that begin at `from`.
pub fn name_before(s: &[u8], from: usize, i: u8, x: NameId) -> bool
    requires { from + 4 * i ≤ length s.now }
    ensures { result ≡ has_name x (names_at s.now from i) }
{
    (0..i).any(|j| x == name_at(s, from, j))
}

// The bytes are those of type `j`, whose place `starts` has.
fn stands_as(here: &[u8], s: &[u8], starts: &[u16], j: u16) -> bool
    ensures { result ≡ same_bytes here.now (part s.now (get_or starts.now j 0) (get_or starts.now (j + 1) 0)) }
{
    let i = j as usize;
    here == bytes_field::between(s, table::place(starts, i), table::place(starts, i + 1))
}

// The bytes `here` are those of one of the `k` types before, whose places `starts` has.
pub fn type_before(here: &[u8], s: &[u8], starts: &[u16], k: u16) -> bool
    ensures { result ≡ among_parts here.now s.now starts.now 0 k }
{
    (0..k).any(|j| stands_as(here, s, starts, j))
}
