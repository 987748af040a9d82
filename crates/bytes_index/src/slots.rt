// The slots of a block's instructions.
ghost use Rattle.std.specs.Prelude.{◌≡◌, ◌+◌, ◌≤◌};
ghost use Rattle.mir.specs.Most.{most_slots};

// From the first on, so many; the terminator's slot is the one behind them.
#[derive(Clone, Copy)]
pub struct Slots {
    pub first: u16,
    pub count: u16,
    ghost low: { first + count ≤ most_slots },
}

impl Slots {
    // The slot behind them: the terminator's.
    pub fn end(self) -> u16
        ensures { result ≡ self.first + self.count }
    {
        self.first + self.count
    }
}
