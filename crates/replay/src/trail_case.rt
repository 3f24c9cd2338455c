// A case of kind 18: settings, schedule, point record, leader and presence (2), list, the peer buffer's length (4), the trail's length
// (4), and the answer: the count of rows (4), the rows (8 each), and the answer of kind 2. With a number the count is 0.
use crate::call_answer::{Answer, LENT, is_filled};
use crate::case::Case;
use crate::failure::{Difference, Failure};
use crate::lent;

// What the count holds before a call.
const COUNT: u32 = 0xA5A5A5A5;

// What a call left beside its answer.
#[derive(Clone, Copy)]
struct Left<'a> {
    count: u32,
    trail: &'a [u8],
}

impl Left<'_> {
    // After a number, that the case expects no rows, and that nothing has changed.
    fn is_untouched(&self, count: u32, rows: &[u8]) -> bool {
        count == 0 && rows.is_empty() && self.count == COUNT && is_filled(self.trail, LENT)
    }

    // After a 0, that the rows are the expected ones, and that nothing has changed after them.
    fn is_rows(&self, count: u32, rows: &[u8]) -> bool {
        let n = rows.len();
        self.count == count
            && n <= self.trail.len()
            && rows[..] == self.trail[..n]
            && is_filled(&self.trail[n..], LENT)
    }
}

// What a case expects: the count, the rows and the answer; none where it is shorter.
fn expected(want: &[u8]) -> Option<(u32, &[u8], &[u8])> {
    let (count, rest) = want.split_at_checked(4)?;
    let count = u32::from_le_bytes(count.try_into().ok()?);
    let (rows, answer) = rest.split_at_checked(8 * count as usize)?;
    Some((count, rows, answer))
}

pub fn replay<'a>(
    case: Case<'a>,
    peers: &'a mut [u8],
    out: &'a mut [u8],
) -> Result<(), Failure<'a>> {
    let [settings, schedule, rec, flags, list, length, room, want, ..] = case.blobs;
    let &[leader, presence] = flags else {
        return Err(Failure::NoRoom);
    };
    let (count, rows, want) = expected(want).ok_or(Failure::Different(Difference::Trail))?;
    let peers = lent::lend(peers, length)?;
    let trail = lent::lend(out, room)?;
    let mut left = COUNT;
    let mut bytes = [LENT; 114];
    let number = wutherdish::wutherdish_trail(
        settings, schedule, rec, leader, presence, list, peers, trail, &mut left, &mut bytes,
    );
    let left = Left { count: left, trail };
    let is_left = match number {
        0 => left.is_rows(count, rows),
        _ => left.is_untouched(count, rows),
    };
    if !is_left {
        return Err(Failure::Different(Difference::Trail));
    }
    Answer {
        number,
        bytes,
        peers,
    }
    .check(want)
}
