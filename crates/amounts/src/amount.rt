// The trait of a kind of amount. Generic code knows a kind by this trait alone.
ghost use Rattle.std.specs.Prelude.{◌≡◌};
ghost use Rattle.amounts.specs.Kinds.{Kind, Laws, Shareable};

use crate::bounds::{Bounds, Parts};

/// An amount of some kind: a plain value, with no invariant, since amounts lie in memory that the caller lends.
/// No function has a body here, although two kinds write some alike: a body would have to know amounts as numbers.
pub trait Amount: Copy {
    ghost kind: { Kind Self };

    /// The neutral amount.
    fn nothing() -> Self
        ensures { result ≡ kind.nothing };

    /// What the amounts of a row come to.
    fn full() -> Self
        ensures { result ≡ kind.full };

    /// The least amount other than nothing.
    fn grain() -> Self
        ensures { result ≡ kind.grain };

    /// Both amounts together.
    fn total(self, other: Self) -> Self
        ensures { result ≡ kind.total self other };

    /// The order of amounts, which may be partial.
    fn at_most(self, other: Self) -> bool
        ensures { result ≡ kind.at_most self other };

    /// The least amount that both are at most.
    fn larger(self, other: Self) -> Self
        ensures { result ≡ kind.larger self other };

    /// Splits `self` between two pairs of bounds. Where no split is possible it answers any two amounts.
    fn share_out(self, own: Bounds<Self>, others: Bounds<Self>) -> Parts<Self>
        ensures { Shareable kind self own others → result ≡ kind.share_out self own others };

    ghost laws: { Laws kind };
}
