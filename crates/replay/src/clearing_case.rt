// A case of kind 20: settings, schedule, point record, leader and presence (2), list, the answer: the number (1), and the 69 bytes
// that the call gives; with a number the first of them is 255, and the id is zeros.
use crate::call_answer::{LENT, is_filled};
use crate::case::Case;
use crate::failure::{Difference, Failure};

// Whether number and bytes are as a case expects. With a number nothing that was lent may change.
fn is_expected(number: u8, bytes: &[u8; 69], want: &[u8]) -> bool {
    if want.len() != 70 || want[0] != number {
        return false;
    }
    if number == 0 {
        return want[1..] == bytes[..];
    }
    want[1] == 255 && is_filled(&want[2..], 0) && is_filled(bytes, LENT)
}

pub fn replay(case: Case<'_>) -> Result<(), Failure<'_>> {
    let [settings, schedule, rec, flags, list, want, ..] = case.blobs;
    let &[leader, presence] = flags else {
        return Err(Failure::NoRoom);
    };
    let mut bytes = [LENT; 69];
    let number = wutherdish::wutherdish_clearing(
        settings, schedule, rec, leader, presence, list, &mut bytes,
    );
    if is_expected(number, &bytes, want) {
        return Ok(());
    }
    Err(Failure::Different(Difference::Clearing))
}
