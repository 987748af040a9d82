// The recorded types of all values of the output.
ghost use Rattle.std.specs.Prelude.{◌+◌, ◌<◌};
ghost use Rattle.table.specs.Number.{numbers_below};

// Those of the `next` values there were, as the table of facts has them, then the types of the `many` fresh values. Each table may go on
// behind them.
#[derive(Clone, Copy)]
pub struct RecordedTypes<'a> {
    pub old: &'a [u16],
    pub next: u16,
    pub fresh: &'a [u16],
    pub many: u32,
    ghost few: { next + many < numbers_below },
}
