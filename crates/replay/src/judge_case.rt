// A case of kind 2: settings, schedule, point record, leader and presence (2), list, the peer buffer's length (4), the answer.
use crate::call_answer::{Answer, LENT};
use crate::case::Case;
use crate::failure::Failure;
use crate::lent;

pub fn replay<'a>(case: Case<'a>, peers: &'a mut [u8]) -> Result<(), Failure<'a>> {
    let [settings, schedule, rec, flags, list, length, want, ..] = case.blobs;
    let &[leader, presence] = flags else {
        return Err(Failure::NoRoom);
    };
    let peers = lent::lend(peers, length)?;
    let mut bytes = [LENT; 114];
    let number = wutherdish::wutherdish_judge(
        settings, schedule, rec, leader, presence, list, peers, &mut bytes,
    );
    Answer {
        number,
        bytes,
        peers,
    }
    .check(want)
}
