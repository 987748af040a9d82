// A routine's code, and what is known of its values where those that are used across blocks are looked for.
ghost use Rattle.std.specs.Prelude.{◌≤◌};
ghost use Rattle.mir.specs.Most.{most_values};

use bytes_index::Code;

// The shapes of their types, which types are eligible, and which block reads each. (Three lists by value and no list of structs: what looks
// a value up here is lent one of them alone, and climb, phis and looked the shapes; shapes by their numbers, as the laws read them.)
#[derive(Clone, Copy)]
pub struct CrossFacts<'a> {
    pub code: Code<'a>,
    pub shapes: &'a [u8],
    pub eligible: &'a [bool],
    pub readers: &'a [u8],
    ghost few: { code.bounds.next ≤ most_values },
}
