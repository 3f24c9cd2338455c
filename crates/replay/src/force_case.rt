// A case of kind 19: settings, schedule, point record, leader and presence (2), list, the output's length (4), the answer: the number
// (1), the count (4) and the rows (8 each); with a number the count is 0 and there are no rows.
use crate::case::Case;
use crate::counted::{COUNT, Counted};
use crate::failure::{Difference, Failure};
use crate::lent;

const ROW: usize = 8;

pub fn replay<'a>(case: Case<'a>, buf: &'a mut [u8]) -> Result<(), Failure<'a>> {
    let [settings, schedule, rec, flags, list, length, want, ..] = case.blobs;
    let &[leader, presence] = flags else {
        return Err(Failure::NoRoom);
    };
    let out = lent::lend(buf, length)?;
    let mut count = COUNT;
    let number = wutherdish::wutherdish_force(
        settings, schedule, rec, leader, presence, list, out, &mut count,
    );
    if (Counted { number, count, out }).is_expected(want, ROW) {
        return Ok(());
    }
    Err(Failure::Different(Difference::Reasons))
}
