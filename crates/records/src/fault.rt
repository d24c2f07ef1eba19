// Why the reader stops before the end of its input.
ghost use Rattle.std.specs.Prelude.{◌≡◌};
ghost use Rattle.records.specs.Faults.{refusal_of};

use refusals::Refusal;

#[derive(Clone, Copy, PartialEq, Eq, Debug)]
pub enum RecordFault {
    /// 1 to 11 bytes follow the last whole record.
    Partial { bytes: usize },
    /// Byte 0 stands for no kind of record.
    UnknownKind { byte: u8 },
    /// A byte that must be 00 is not, or a name's length is not 1 to 8.
    WrongByte { position: usize },
}

impl From<RecordFault> for Refusal {
    ghost from_gives = { λ fault r. r ≡ refusal_of fault };

    fn from(fault: RecordFault) -> Refusal {
        match fault {
            RecordFault::Partial { bytes } => Refusal::PartialRecord { bytes },
            RecordFault::UnknownKind { byte } => Refusal::UnknownRecord { byte },
            RecordFault::WrongByte { position } => Refusal::WrongByte { position },
        }
    }
}
