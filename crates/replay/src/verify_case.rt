// A case of kind 1: settings, schedule, point record, the peer buffer's length (4), the answer.
use crate::call_answer::{Answer, LENT};
use crate::case::Case;
use crate::failure::Failure;
use crate::lent;

pub fn replay<'a>(case: Case<'a>, peers: &'a mut [u8]) -> Result<(), Failure<'a>> {
    let [settings, schedule, rec, length, want, ..] = case.blobs;
    let peers = lent::lend(peers, length)?;
    let mut bytes = [LENT; 114];
    let number = wutherdish::wutherdish_verify(settings, schedule, rec, peers, &mut bytes);
    Answer {
        number,
        bytes,
        peers,
    }
    .check(want)
}
