// Refusals: the closed list of causes for which a call is refused, each with its number and place.
#![tactic(auto)]

ghost use Rattle.std.specs.Prelude.{◌≡◌};
ghost use Rattle.refusals.specs.Numbers.{number_of, place_of};

/// Which of a band's two bounds is meant.
#[derive(Clone, Copy, PartialEq, Eq, Debug)]
pub enum Bound {
    Low,
    High,
}

#[derive(Clone, Copy, PartialEq, Eq, Debug)]
pub enum Refusal {
    /// The number of states is 0, above 256 or above the rank places.
    StateCount { states: usize },
    /// A state number is not below the number of states.
    NoSuchState { position: usize },
    /// A bound is no amount at most full.
    NoAmount { bound: Bound },
    /// 1 to 11 bytes follow the last whole record.
    PartialRecord { bytes: usize },
    /// Byte 0 of a record stands for no kind of record.
    UnknownRecord { byte: u8 },
    /// A byte of a record that must be 00 is not, or a name's length is not 1 to 8.
    WrongByte { position: usize },
    /// A list that the caller lends is too short.
    ShortList { need: usize },
    /// The record bytes are more than 61,440.
    LongInput,
    /// The table has no states yet.
    NoStates,
    /// No verdict is in force.
    NoVerdict,
    /// A row was asked of a ranked state.
    Ranked { rank: u16 },
    /// A reason was asked of a standing state.
    Standing,
    /// A new pair would be held, and no band place is free.
    NoFreePlace,
}

// The numbers are the product's own. Variants with fields have no discriminant, and a place is no conversion.
impl Refusal {
    pub fn number(self) -> u8
        ensures { result ≡ number_of self }
    {
        match self {
            Refusal::StateCount { .. } => 1,
            Refusal::NoSuchState { .. } => 2,
            Refusal::NoAmount { .. } => 3,
            Refusal::PartialRecord { .. } => 4,
            Refusal::UnknownRecord { .. } => 5,
            Refusal::WrongByte { .. } => 6,
            Refusal::ShortList { .. } => 7,
            Refusal::LongInput => 8,
            Refusal::NoStates => 9,
            Refusal::NoVerdict => 10,
            Refusal::Ranked { .. } => 11,
            Refusal::Standing => 12,
            Refusal::NoFreePlace => 13,
        }
    }

    pub fn place(self) -> usize
        ensures { result ≡ place_of self }
    {
        match self {
            Refusal::StateCount { states } => states,
            Refusal::NoSuchState { position } => position,
            Refusal::NoAmount { bound: Bound::Low } => 0,
            Refusal::NoAmount { bound: Bound::High } => 1,
            Refusal::PartialRecord { bytes } => bytes,
            Refusal::UnknownRecord { byte } => usize::from(byte),
            Refusal::WrongByte { position } => position,
            Refusal::ShortList { need } => need,
            Refusal::Ranked { rank } => usize::from(rank),
            Refusal::LongInput
            | Refusal::NoStates
            | Refusal::NoVerdict
            | Refusal::Standing
            | Refusal::NoFreePlace => 0,
        }
    }
}

#[cfg(test)]
mod tests;
