// How long a record file may be.

/// A listing and a report refuse more record bytes than these.
pub const INPUT_BYTES: usize = 61_440;

/// Room for one byte more than is accepted, so that a longer input shows.
pub const BUFFER_BYTES: usize = INPUT_BYTES + 1;
