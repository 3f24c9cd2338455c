// A case of kind 5, and of kind 6 after the book that it is offered to: schedule, leader (1), point record, the peer
// buffer's length (4), the sha256 of the book's slice afterwards, the answer.
use crate::call_answer::{Answer, LENT};
use crate::case::Case;
use crate::failure::{Difference, Failure};
use crate::file::Book;
use crate::{lent, sha256};

pub fn replay<'a>(
    case: Case<'a>,
    peers: &'a mut [u8],
    book: &'a mut Book,
) -> Result<(), Failure<'a>> {
    let [schedule, leader, rec, length, digest, want, ..] = case.blobs;
    let &[leader] = leader else {
        return Err(Failure::NoRoom);
    };
    let Book { bytes, len } = book;
    let book = bytes.get_mut(..*len).ok_or(Failure::NoRoom)?;
    let peers = lent::lend(peers, length)?;
    let mut bytes = [LENT; 114];
    let number = wutherdish::wutherdish_offer(book, schedule, leader, rec, peers, &mut bytes);
    Answer {
        number,
        bytes,
        peers,
    }
    .check(want)?;
    if sha256::digest(book).as_slice() != digest {
        return Err(Failure::Different(Difference::Book));
    }
    Ok(())
}
