// The rewriting: what it counts; the definitions are in specs/.

#![tactic(auto)]

// sroa.rs, `Stats`: builds and extracts scalarized, inserts and assigns forwarded, materializations.
#[derive(Clone, Copy, Default)]
pub struct Counts {
    pub builds: u32,
    pub extracts: u32,
    pub inserts: u32,
    pub assigns: u32,
    pub materializations: u32,
}

// Why a rewriting is refused.
// Clash: an array rebuild met another count of parts than its type has.
// Looped: a rebuild met its own value among its parts.
// Overfull: the next value or a block's count of instructions would pass 65,535.
#[derive(Clone, Copy, Debug, PartialEq, Eq)]
pub enum Fault {
    Clash,
    Looped,
    Overfull,
}
