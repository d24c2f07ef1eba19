// What a record holds.

#[derive(Clone, Copy)]
pub enum Record<'a> {
    /// The band from `source` to `target`.
    Band {
        source: u8,
        target: u8,
        low: u32,
        high: u32,
    },
    /// The name of `state`: the part of the input that begins at `place`.
    Name {
        state: u8,
        place: usize,
        name: &'a [u8],
    },
}
