// A band as it lies in the caller's memory.
ghost use Rattle.std.specs.Prelude.{◌≡◌};
ghost use Rattle.tables.specs.Held.{key_of};

/// The bounds of the amount that passes from `source` to `target`.
#[derive(Clone, Copy)]
pub struct Band<K> {
    pub source: u16,
    pub target: u16,
    pub low: K,
    pub high: K,
}

impl<K> Band<K> {
    /// The pair of states as one number: held bands are in ascending order of these.
    // No tuple: with tuples a load of bands in order took about 1.4 times as long.
    pub(crate) fn pair(&self) -> u32
        ensures { result ≡ key_of self.now }
    {
        let (source, target) = (self.source, self.target);
        u32::from(source) * 65_536 + u32::from(target)
    }
}
