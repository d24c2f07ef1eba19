// Two bounds on an amount, and the two amounts that a share-out gives.

/// A low and a high amount.
#[derive(Clone, Copy)]
pub struct Bounds<K> {
    pub low: K,
    pub high: K,
}

/// What one side of a share-out gets, and what the others get together.
#[derive(Clone, Copy)]
pub struct Parts<K> {
    pub own: K,
    pub others: K,
}
