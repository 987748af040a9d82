// A whole routine: the readers of its sections.
// (Bytes and a place in them stay two parameters, as in bytes_block.)
#![tactic(auto)]

pub mod sections;

use bytes_block::Mosts;
use mir::BlockId;

// The next value, the number of blocks and the entry block.
#[derive(Clone, Copy)]
pub struct Sizes {
    pub next: u16,
    pub blocks: u16,
    pub entry: BlockId,
}

// "Most: 64 types, next value 256, 32 blocks, 128 instructions in a block, 256 in all, 16 in any list, 8 projections."
pub const MOSTS: Mosts = Mosts {
    types: 64,
    next: 256,
    blocks: 32,
    block: 128,
    all: 256,
    list: 16,
    projections: 8,
};
