// What all rounds together come to.
ghost use Rattle.std.specs.Prelude.{◌≤◌};

/// How many states fell, and in how many rounds.
#[derive(Clone, Copy)]
pub(crate) struct Tally {
    pub removed: usize,
    pub rounds: usize,
    ghost rounded: { rounds ≤ removed },
}
