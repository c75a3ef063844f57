// The interval keeper: knows a least and a most number.
ghost use Rattle.std.specs.Prelude.{◌≤◌};
ghost use Rattle.keeper.specs.Intervals.{whole_interval, between};
ghost use Rattle.keeper.specs.Rules.{interval_made};
ghost use Rattle.keeper.specs.Sound.{held};
ghost use Rattle.std.proofs.Common.{rules};

use crate::keeper::Keeper;
use crate::record::IntervalRecord;
use source::operator::Operator;
use source::width::Width;

#[derive(Clone, Copy, PartialEq, Eq, Debug)]
pub struct Interval;

impl Keeper for Interval {
    type Record = IntervalRecord;

    ghost bears = { λ keeper r. r.width };

    ghost holds = { λ keeper r n. (r.lo ≤ n) × (n ≤ r.hi) };

    ghost lowest = { λ keeper r. r.lo };

    ghost highest = { λ keeper r. r.hi };

    ghost whole = { λ keeper k. whole_interval k };

    ghost exact = { λ keeper k n. between k n n };

    ghost makes = { λ keeper op k a b c. interval_made op k a b c };

    ghost inside = { Prim.search rules };

    ghost bounded = { Prim.search rules };

    ghost enclosed = { Prim.search rules };

    ghost whole_bears = { Prim.search rules };

    ghost whole_holds = { Prim.search rules };

    ghost exact_bears = { Prim.search rules };

    ghost exact_holds = { Prim.search rules };

    ghost makes_bears = { Prim.search rules };

    ghost makes_holds = { λ keeper. held };

    fn anything(&self, width: Width) -> IntervalRecord {
        IntervalRecord::whole(width)
    }

    fn exactly(&self, width: Width, n: u64) -> IntervalRecord {
        IntervalRecord::between(width, n, n)
    }

    fn least(&self, r: IntervalRecord) -> u64 {
        r.lo
    }

    fn most(&self, r: IntervalRecord) -> u64 {
        r.hi
    }

    // One arm for each operator that has a rule, since each has its own.
    fn made(
        &self,
        op: Operator,
        width: Width,
        a: IntervalRecord,
        b: IntervalRecord,
        c: IntervalRecord,
    ) -> IntervalRecord {
        match op {
            Operator::BvAdd => a.sum(width, b),
            Operator::BvSub => a.difference(width, b),
            Operator::BvAnd => a.common(width, b),
            Operator::BvLshr | Operator::BvUrem => a.left_over(width),
            Operator::Extract(_, lower) => a.part(width, lower),
            Operator::Ite => b.either(width, c),
            _ => IntervalRecord::whole(width),
        }
    }
}
