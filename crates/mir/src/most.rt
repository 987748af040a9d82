// How many a routine has at most: values, blocks, instructions in a block, and slots, one for each of its 256 instructions and one for
// each block's terminator.
pub const VALUES: usize = 256;

pub const BLOCKS: usize = 32;

pub const INSTRUCTIONS: usize = 128;

pub const SLOTS: usize = 288;
