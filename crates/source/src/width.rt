// The width of a bit-vector: from 1 to 32 bits.
ghost use Rattle.std.specs.Prelude.{◌≡◌, ◌≤◌, true, false, MatchOption};
ghost use Rattle.source.specs.Widths.{is_width};

#[derive(Clone, Copy)]
pub struct Width {
    bits: u32,
    ghost ok: { (1 ≤ bits) × (bits ≤ 32) },
}

impl Width {
    // A width of so many bits, if they are from 1 to 32. There is one reason for none, so no error type names it.
    pub fn new(bits: u32) -> Option<Width>
        ensures { MatchOption result (is_width bits ≡ false) (λ w. (is_width bits ≡ true) × (w.bits ≡ bits)) }
    {
        if bits >= 1 && bits <= 32 {
            Some(Width { bits })
        } else {
            None
        }
    }

    pub fn bits(self) -> u32
        ensures { result ≡ self.bits }
    {
        self.bits
    }
}
