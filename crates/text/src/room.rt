// The room for a text: whether there is enough, and what is needed where there is not.
ghost use Rattle.std.specs.Prelude.{◌≡◌, length, Ok, Err, nat_le, if◌then◌else◌};
ghost use Rattle.refusals.specs.declared.Refusal.TheVariants.{ShortList};

use refusals::Refusal;

/// The caller's bytes end before the text does: how many would be needed, or the largest `usize` if that is fewer.
#[derive(Clone, Copy, PartialEq, Eq, Debug)]
pub struct TooShort {
    pub need: usize,
}

impl From<TooShort> for Refusal {
    ghost from_gives = { λ short r. r ≡ ShortList short.need };

    fn from(short: TooShort) -> Refusal {
        Refusal::ShortList { need: short.need }
    }
}

/// Refuses a text that has fewer bytes than are asked for.
pub fn check_room(text: &[u8], need: usize) -> Result<(), Refusal>
    ensures { result ≡ if nat_le need (length text.now) then Ok tt else Err (ShortList need) }
{
    if text.len() < need {
        Err(Refusal::ShortList { need })
    } else {
        Ok(())
    }
}
