// Why a state is not locally consistent with a set of states.

#[derive(Clone, Copy, PartialEq, Eq, Debug)]
pub enum Reason {
    /// The lowest target outside the set whose low is other than nothing.
    Lost { target: usize },
    /// The lowest target inside the set whose low is not at most its high.
    Crossed { target: usize },
    /// The lows inside the set come to more than full.
    OverFull,
    /// The highs inside the set do not come to full.
    ShortOfFull,
}
