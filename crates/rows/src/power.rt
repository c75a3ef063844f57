// Powers of 2.
ghost use Rattle.std.specs.Prelude.{◌≡◌, ◌-◌, ◌^◌, ◌≤◌, nat_le};
ghost use Rattle.target.specs.declared.row.Row.TheVariants.{Number};
ghost use Rattle.rows.specs.Rows.{top};

use target::row::Row;

// A power of 2, up to 2^32.
#[derive(Clone, Copy)]
pub(crate) struct Power {
    pub(crate) exponent: u32,
    ghost small: { exponent ≤ 32 },
}

impl Power {
    pub(crate) fn number(self) -> u64
        ensures { result ≡ 2 ^ self.exponent }
    {
        1 << self.exponent
    }

    // The row of its number.
    pub(crate) fn row(self) -> Row
        ensures { result ≡ Number (2 ^ self.exponent) }
    {
        Row::Number(self.number())
    }

    // The greatest number below it.
    pub(crate) fn top(self) -> u64
        ensures { result ≡ top self.exponent }
    {
        self.number() - 1
    }

    // Whether all numbers up to `most` lie below it.
    pub(crate) fn exceeds(self, most: u64) -> bool
        ensures { result ≡ nat_le most (top self.exponent) }
    {
        most <= self.top()
    }
}
