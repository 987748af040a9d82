// Where an instruction stands.
ghost use Rattle.std.specs.Prelude.{◌<◌};
ghost use Rattle.bytes_operands.specs.Reach.{offset_reach};

use mir::ValueId;

// Where its own fields begin, near enough for sums of their places, where it ends, and what its first field defines.
#[derive(Clone, Copy)]
pub struct Spot {
    pub off: usize,
    pub end: usize,
    pub dest: ValueId,
    ghost near: { off < offset_reach },
}
