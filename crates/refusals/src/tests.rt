// Every refusal with its number and place.
use crate::{Bound, Refusal};

#[test]
fn each_refusal_has_its_number_and_place(rt: HostRuntime) {
    let largest = usize::MAX;
    let all = [
        (Refusal::StateCount { states: largest }, 1, largest),
        (Refusal::NoSuchState { position: 1 }, 2, 1),
        (Refusal::NoAmount { bound: Bound::Low }, 3, 0),
        (Refusal::NoAmount { bound: Bound::High }, 3, 1),
        (Refusal::PartialRecord { bytes: 11 }, 4, 11),
        (Refusal::UnknownRecord { byte: 255 }, 5, 255),
        (Refusal::WrongByte { position: 2 }, 6, 2),
        (Refusal::ShortList { need: 4_096 }, 7, 4_096),
        (Refusal::LongInput, 8, 0),
        (Refusal::NoStates, 9, 0),
        (Refusal::NoVerdict, 10, 0),
        (Refusal::Ranked { rank: 256 }, 11, 256),
        (Refusal::Standing, 12, 0),
        (Refusal::NoFreePlace, 13, 0),
    ];
    for (refusal, number, place) in all {
        assert_eq!(rt; refusal.number(), number);
        assert_eq!(rt; refusal.place(), place);
    }
}
