// The buffers that calls are lent.
use crate::call_answer::LENT;
use crate::failure::Failure;

// The little-endian number of a blob of four bytes.
fn read_length(blob: &[u8]) -> Option<usize> {
    let four = blob.try_into().ok()?;
    Some(u32::from_le_bytes(four) as usize)
}

// As much of a buffer as a blob says, filled.
pub fn lend<'a>(buf: &'a mut [u8], length: &[u8]) -> Result<&'a mut [u8], Failure<'a>> {
    let n = read_length(length).ok_or(Failure::NoRoom)?;
    let lent = buf.get_mut(..n).ok_or(Failure::NoRoom)?;
    lent.fill(LENT);
    Ok(lent)
}
