// Shares: parts of a whole of 1,048,576, which add up. A number past full means over.
ghost use Rattle.std.specs.Prelude.{◌≡◌};
ghost use Rattle.amounts.specs.Kinds.{Shareable};
ghost use Rattle.amounts.specs.Shares.{shares, share_of};
ghost use Rattle.std.proofs.Common.{rules};

use crate::amount::Amount;
use crate::bounds::{Bounds, Parts};
use crate::record_number::RecordNumber;

const FULL: u32 = 1_048_576;

const OVER: u32 = FULL + 1;

/// It has no `==`: two numbers past full differ, and are the same amount.
#[derive(Clone, Copy)]
pub struct Share {
    pub number: u32,
}

impl Amount for Share {
    ghost kind = { shares };

    ghost laws = { Prim.search rules };

    fn nothing() -> Share {
        Share { number: 0 }
    }

    fn full() -> Share {
        Share { number: FULL }
    }

    fn grain() -> Share {
        Share { number: 1 }
    }

    fn total(self, other: Share) -> Share {
        let sum = u64::from(self.number) + u64::from(other.number);
        Share {
            number: sum.min(u64::from(OVER)) as u32,
        }
    }

    fn at_most(self, other: Share) -> bool {
        self.number.min(OVER) <= other.number.min(OVER)
    }

    fn larger(self, other: Share) -> Share {
        Share {
            number: self.number.max(other.number),
        }
    }

    // The check says that it cannot give this method the trait's clause, so the clause stands here again.
    fn share_out(self, own: Bounds<Share>, others: Bounds<Share>) -> Parts<Share>
        ensures { Shareable shares self own others → result ≡ shares.share_out self own others }
    {
        // Where the law holds, `self` is no more than full: an `others.high` that is over leaves 0.
        let unplaced = self.number.saturating_sub(others.high.number);
        let given = own.low.number.max(unplaced);
        Parts {
            own: Share { number: given },
            others: Share {
                number: self.number.saturating_sub(given),
            },
        }
    }
}

impl RecordNumber for Share {
    ghost amount_of = { share_of };

    fn from_number(number: u32) -> Option<Share> {
        (number <= FULL).then_some(Share { number })
    }
}
