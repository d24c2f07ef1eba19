// What stops a report before its lines.
ghost use Rattle.std.specs.Prelude.{◌≡◌};
ghost use Rattle.reports.specs.Reporting.{stop_of};

use refusals::Refusal;
use tables::load::LoadFault;

/// A refusal and the index of its record, which is 0 outside a load.
#[derive(Clone, Copy)]
pub(crate) struct Stop {
    pub index: usize,
    pub refusal: Refusal,
}

impl From<Refusal> for Stop {
    ghost from_gives = { λ refusal r. r ≡ record { index = 0; refusal = refusal } };

    fn from(refusal: Refusal) -> Stop {
        Stop { index: 0, refusal }
    }
}

impl From<LoadFault> for Stop {
    ghost from_gives = { λ fault r. r ≡ stop_of fault };

    fn from(fault: LoadFault) -> Stop {
        match fault {
            LoadFault::Records { index, fault } => Stop {
                index,
                refusal: fault.into(),
            },
            LoadFault::Table { index, refusal } => Stop { index, refusal },
        }
    }
}
