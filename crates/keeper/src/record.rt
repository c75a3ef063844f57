// The record of the interval keeper, and its rules: what is known of a result, from what is known of the
// operands.
//
// Each rule answers all numbers of the width where its ends are not a range of the width. For operands that
// the operator takes, that strikes only a sum that may roll over and a part with bits cut off above it: the
// clauses `ends` say so. The result's width stands beside the records, as the interface of keepers passes it.
ghost use Rattle.std.specs.Prelude.{◌≡◌, ◌+◌, ◌-◌, ◌/◌, ◌^◌, ◌<◌, ◌≤◌, min, max};
ghost use Rattle.std.specs.Option.{SomeIff};

use crate::largest::largest;
use source::width::Width;

// The numbers from `lo` to `hi`, both of the width.
#[derive(Clone, Copy, PartialEq, Eq, Debug)]
pub struct IntervalRecord {
    pub width: u32,
    pub lo: u64,
    pub hi: u64,
    ghost ok: { (lo ≤ hi) × (hi < 2 ^ width) },
}

// A number without its lower bits.
fn without_lower(n: u64, lower: u32) -> u64
    ensures { result ≡ n / 2 ^ lower }
{
    n.checked_shr(lower).unwrap_or(0)
}

impl IntervalRecord {
    ghost use Rattle.keeper.specs.Intervals.{whole_interval, between};
    ghost use Rattle.keeper.specs.Rules.{sum_of, difference_of, common_of, rest, part_of, either_of};

    // All numbers of the width.
    pub fn whole(width: Width) -> Self
        ensures { result ≡ whole_interval width.bits }
    {
        IntervalRecord {
            width: width.bits(),
            lo: 0,
            hi: largest(width),
        }
    }

    // The numbers from `lo` to `hi`, if that is a range of the width.
    pub fn new(width: Width, lo: u64, hi: u64) -> Option<Self>
        ensures { SomeIff result ((lo ≤ hi) × (hi < 2 ^ width.bits)) (between width.bits lo hi) }
    {
        if lo <= hi && hi <= largest(width) {
            Some(IntervalRecord {
                width: width.bits(),
                lo,
                hi,
            })
        } else {
            None
        }
    }

    // The same, or all numbers of the width if it is none.
    pub fn between(width: Width, lo: u64, hi: u64) -> Self
        ensures made { result ≡ between width.bits lo hi }
        ensures ends { lo ≤ hi → hi < 2 ^ width.bits → (result.lo ≡ lo) × (result.hi ≡ hi) }
    {
        Self::new(width, lo, hi).unwrap_or(Self::whole(width))
    }

    pub fn sum(self, width: Width, b: Self) -> Self
        ensures made { result ≡ sum_of width.bits self b }
        ensures ends { self.hi + b.hi < 2 ^ width.bits → (result.lo ≡ self.lo + b.lo) × (result.hi ≡ self.hi + b.hi) }
    {
        match self.hi.checked_add(b.hi) {
            Some(hi) => Self::between(width, self.lo + b.lo, hi),
            None => Self::whole(width),
        }
    }

    pub fn difference(self, width: Width, b: Self) -> Self
        ensures made { result ≡ difference_of width.bits self b }
        ensures ends { self.width ≡ width.bits → b.hi ≤ self.lo → (result.lo ≡ self.lo - b.hi) × (result.hi ≡ self.hi - b.lo) }
    {
        match self.lo.checked_sub(b.hi) {
            Some(lo) => Self::between(width, lo, self.hi - b.lo),
            None => Self::whole(width),
        }
    }

    // The bits that two numbers have in common.
    pub fn common(self, width: Width, b: Self) -> Self
        ensures made { result ≡ common_of width.bits self b }
        ensures ends { self.width ≡ width.bits → (result.lo ≡ 0) × (result.hi ≡ min self.hi b.hi) }
    {
        Self::between(width, 0, self.hi.min(b.hi))
    }

    // What a shift to the right or a remainder leaves.
    pub fn left_over(self, width: Width) -> Self
        ensures made { result ≡ rest width.bits self }
        ensures ends { self.width ≡ width.bits → (result.lo ≡ 0) × (result.hi ≡ self.hi) }
    {
        Self::between(width, 0, self.hi)
    }

    // The bits from the lower one up.
    pub fn part(self, width: Width, lower: u32) -> Self
        ensures made { result ≡ part_of width.bits lower self }
        ensures ends { self.hi / 2 ^ lower < 2 ^ width.bits → (result.lo ≡ self.lo / 2 ^ lower) × (result.hi ≡ self.hi / 2 ^ lower) }
    {
        Self::between(
            width,
            without_lower(self.lo, lower),
            without_lower(self.hi, lower),
        )
    }

    // The numbers of either of two.
    pub fn either(self, width: Width, c: Self) -> Self
        ensures made { result ≡ either_of width.bits self c }
        ensures ends { self.width ≡ width.bits → c.width ≡ width.bits → (result.lo ≡ min self.lo c.lo) × (result.hi ≡ max self.hi c.hi) }
    {
        Self::between(width, self.lo.min(c.lo), self.hi.max(c.hi))
    }
}
