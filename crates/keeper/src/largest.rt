// The largest number of so many bits.
ghost use Rattle.std.specs.Prelude.{◌≡◌, ◌-◌, ◌^◌, min};

use source::width::Width;

// Of more than 64 bits, the largest number of 64.
pub fn largest_of_bits(bits: u32) -> u64
    ensures { result ≡ 2 ^ min bits 64 - 1 }
{
    1u64.checked_shl(bits).map_or(u64::MAX, |above| above - 1)
}

// The same of a width. A call of its own, since its clause needs no cap at 64 bits.
pub fn largest(width: Width) -> u64
    ensures { result ≡ 2 ^ width.bits - 1 }
{
    largest_of_bits(width.bits())
}
