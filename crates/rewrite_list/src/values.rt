// Lists of values as the writers go over them.
ghost use Rattle.std.specs.Prelude.{◌<◌};
ghost use Rattle.rewrite_progress.specs.Effect.{counts_below};

use bytes_index::Code;
use rewrite_wanted::Asks;

// A list of values: where the first stands, how many there are, and the types asked of them. (No `Listed` in it, which holds the
// bytes and has the first place near: the definitions make such lists of any bytes, `call_list`, and know nothing of how they are lent.)
#[derive(Clone, Copy)]
pub struct ValueList {
    pub first: usize,
    pub many: u8,
    pub asks: Asks,
}

// A list that stands in the fields of an instruction or a terminator of a routine, and which values are tracked there. It begins near,
// so that the places behind it have room.
#[derive(Clone, Copy)]
pub struct ListedValues<'a> {
    pub code: Code<'a>,
    pub fields: &'a [u8],
    pub list: ValueList,
    pub tracked: &'a [bool],
    ghost near: { list.first < counts_below },
}
