// A case of kind 16: id (68), payload length and bytes (8), includes, witness, evidence, proof link (102), trigger link (102), role,
// seq_no and is_last (3), time and anchor_time (16), the output's length (4), and the answer: the number (1), the count (4) and the
// record; with a number the count is 0 and there is no record.
use crate::case::Case;
use crate::counted::{COUNT, Counted};
use crate::failure::{Difference, Failure};
use crate::lent;

// Two little-endian numbers of four bytes.
fn two_u32(blob: &[u8]) -> Option<[u32; 2]> {
    let &[a, b, c, d, e, f, g, h] = blob else {
        return None;
    };
    Some([
        u32::from_le_bytes([a, b, c, d]),
        u32::from_le_bytes([e, f, g, h]),
    ])
}

// Two little-endian numbers of eight bytes.
fn two_u64(blob: &[u8]) -> Option<[u64; 2]> {
    let (first, second) = blob.split_at_checked(8)?;
    Some([
        u64::from_le_bytes(first.try_into().ok()?),
        u64::from_le_bytes(second.try_into().ok()?),
    ])
}

// What the call leaves in the output that it is lent; none where a blob is of a length that it doesn't take.
fn call<'a>(case: Case<'_>, out: &'a mut [u8]) -> Option<Counted<'a>> {
    let [
        id,
        payload,
        includes,
        witness,
        evidence,
        proof,
        trigger,
        role,
        times,
        ..
    ] = case.blobs;
    let [payload_len, payload_bytes] = two_u32(payload)?;
    let [time, anchor_time] = two_u64(times)?;
    let &[role, seq_no, is_last] = role else {
        return None;
    };
    let mut count = COUNT;
    let number = wutherdish::wutherdish_write(
        id.try_into().ok()?,
        payload_len,
        payload_bytes,
        includes,
        witness,
        evidence,
        proof.try_into().ok()?,
        trigger.try_into().ok()?,
        role,
        seq_no,
        is_last,
        time,
        anchor_time,
        out,
        &mut count,
    );
    Some(Counted { number, count, out })
}

pub fn replay<'a>(case: Case<'a>, buf: &'a mut [u8]) -> Result<(), Failure<'a>> {
    let [.., length, want] = case.blobs;
    let out = lent::lend(buf, length)?;
    let left = call(case, out).ok_or(Failure::NoRoom)?;
    if left.is_expected(want, 1) {
        return Ok(());
    }
    Err(Failure::Different(Difference::Record))
}
