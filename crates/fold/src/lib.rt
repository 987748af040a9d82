// Which builds the pass takes apart: the settings; the definitions are in specs/.

#![tactic(auto)]

// Which lowering rule: the Rust's, or that of document 02, wish 5.
#[derive(Clone, Copy, PartialEq, Eq, Debug)]
pub enum Edition {
    First,
    Second,
}

// sroa.rs, `Config`: enable_tuples, enable_structs, max_aggregate_size; and the edition.
#[derive(Clone, Copy)]
pub struct Settings {
    pub tuples: bool,
    pub structs: bool,
    pub most: u8,
    pub edition: Edition,
}
