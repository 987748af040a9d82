// The shelf test: which rewritten routines the claim of equal runs covers; the definitions are in specs/. Here is what its code
// tells literals apart by.

#![tactic(auto)]

// The literals that fit one type: Integers Felt and U32, Booleans Bool, Units Unit.
#[derive(Clone, Copy, PartialEq, Eq)]
pub enum Literals {
    Integers,
    Booleans,
    Units,
}
