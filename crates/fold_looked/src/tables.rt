// What the families of a block are found by.
ghost use Rattle.std.specs.Prelude.{◌≤◌, length};
ghost use Rattle.mir.specs.Most.{most_values};

// The shapes of the types of all values, the block's copies, and a mark for each value, of those that the block looks into by an
// index that is not known: there are no more values than there can be.
#[derive(Clone, Copy)]
pub struct Tables<'a> {
    pub shapes: &'a [u8],
    pub copies: &'a [u16],
    pub dynamic: &'a [bool],
    ghost few: { length dynamic.now ≤ most_values },
}
