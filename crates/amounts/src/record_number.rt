// The trait of a kind whose amounts can be written in record files as 32-bit numbers.
ghost use Rattle.std.specs.Prelude.{◌≡◌, ℕ, IfSome, Option};
ghost use Rattle.amounts.specs.Kinds.{AtMost};

use crate::amount::Amount;

// `TryFrom` would want an error type that says nothing and a second impl for each kind; load has its own refusal.
pub trait RecordNumber: Amount {
    /// The amount that a number stands for, if it stands for any.
    ghost amount_of: { ℕ → Option Self };

    fn from_number(number: u32) -> Option<Self>
        ensures value { result ≡ amount_of number }
        ensures bound { IfSome result (λ x. AtMost Self.Amount.kind x Self.Amount.kind.full) };
}
