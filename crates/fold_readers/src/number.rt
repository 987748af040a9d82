// A block's number as the table of readers has it.
ghost use Rattle.std.specs.Prelude.{◌<◌};
ghost use Rattle.fold_readers.specs.Readers.{block_limit};

// There is room for one more, and for the number of several.
#[derive(Clone, Copy)]
pub struct BlockNumber {
    pub number: u8,
    ghost low: { number < block_limit },
}
