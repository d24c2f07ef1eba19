// Grades: degrees from 0 to 1,000, of which the larger counts. A number above full is an amount of its own.
ghost use Rattle.std.specs.Prelude.{◌≡◌};
ghost use Rattle.amounts.specs.Grades.{grades, grade_of};
ghost use Rattle.amounts.specs.Kinds.{Shareable};
ghost use Rattle.std.proofs.Common.{rules};

use crate::amount::Amount;
use crate::bounds::{Bounds, Parts};
use crate::record_number::RecordNumber;

const FULL: u32 = 1_000;

#[derive(Clone, Copy, PartialEq, Eq, PartialOrd, Ord, Debug)]
pub struct Grade {
    pub number: u32,
}

impl Amount for Grade {
    ghost kind = { grades };

    ghost laws = { Prim.search rules };

    fn nothing() -> Grade {
        Grade { number: 0 }
    }

    fn full() -> Grade {
        Grade { number: FULL }
    }

    fn grain() -> Grade {
        Grade { number: 1 }
    }

    fn total(self, other: Grade) -> Grade {
        self.larger(other)
    }

    fn at_most(self, other: Grade) -> bool {
        self <= other
    }

    fn larger(self, other: Grade) -> Grade {
        self.max(other)
    }

    // The check says that it cannot give this method the trait's clause, so the clause stands here again.
    fn share_out(self, own: Bounds<Grade>, others: Bounds<Grade>) -> Parts<Grade>
        ensures { Shareable grades self own others → result ≡ grades.share_out self own others }
    {
        Parts {
            own: own.high.min(self),
            others: others.high.min(self),
        }
    }
}

impl RecordNumber for Grade {
    ghost amount_of = { grade_of };

    fn from_number(number: u32) -> Option<Grade> {
        (number <= FULL).then_some(Grade { number })
    }
}
