// The plain keeper: knows only widths.
ghost use Rattle.std.specs.Prelude.{ℕ, ◌-◌, ◌^◌, ◌<◌, min};
ghost use Rattle.std.proofs.Common.{rules};
ghost use Rattle.keeper.specs.PlainKeeperLemmas.{below_width, ends_in_width, made_holds};

use crate::keeper::Keeper;
use crate::largest::largest_of_bits;
use source::operator::Operator;
use source::width::Width;

#[derive(Clone, Copy, PartialEq, Eq, Debug)]
pub struct Plain;

// A bare number and no `Width`, since callers fill tables with records of any width.
#[derive(Clone, Copy, PartialEq, Eq, Debug)]
pub struct PlainRecord {
    pub width: u32,
}

// Of a record of more than 64 bits, which no width makes, the numbers of 64 bits count.
impl Keeper for Plain {
    type Record = PlainRecord;

    ghost bears = { λ keeper r. r.width };

    ghost holds = { λ keeper r n. n < 2 ^ min r.width 64 };

    ghost lowest = { λ keeper r. 0 };

    ghost highest = { λ keeper r. 2 ^ min r.width 64 - 1 };

    ghost whole = { λ keeper k. record { width = k } };

    ghost exact = { λ keeper k n. record { width = k } };

    ghost makes = { λ keeper op k a b c. record { width = k } };

    ghost inside = { λ keeper r. below_width r.width };

    ghost bounded = { λ keeper r. ends_in_width r.width };

    ghost enclosed = { Prim.search rules };

    ghost whole_bears = { Prim.search rules };

    ghost whole_holds = { Prim.search rules };

    ghost exact_bears = { Prim.search rules };

    ghost exact_holds = { Prim.search rules };

    ghost makes_bears = { Prim.search rules };

    ghost makes_holds = { λ keeper op k a b c va vb vc t e p q s. made_holds op k va vb vc t e };

    fn anything(&self, width: Width) -> PlainRecord {
        PlainRecord {
            width: width.bits(),
        }
    }

    fn exactly(&self, width: Width, _n: u64) -> PlainRecord {
        self.anything(width)
    }

    fn least(&self, _r: PlainRecord) -> u64 {
        0
    }

    fn most(&self, r: PlainRecord) -> u64 {
        largest_of_bits(r.width)
    }

    fn made(
        &self,
        _op: Operator,
        width: Width,
        _a: PlainRecord,
        _b: PlainRecord,
        _c: PlainRecord,
    ) -> PlainRecord {
        self.anything(width)
    }
}
