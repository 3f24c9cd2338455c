// One case in a buffer, its blobs one after another.
use crate::failure::Failure;
use std::io::Read;

// A case's first eleven blobs, of which the last are empty where it has fewer.
#[derive(Clone, Copy)]
pub struct Case<'a> {
    pub blobs: [&'a [u8]; 11],
}

// Reads past blobs of which nothing is needed.
fn pass_over<R: Read>(file: &mut R, blobs: u8, buf: &mut [u8]) {
    for _ in 0..blobs {
        case_files::read_blob(file, buf, 0);
    }
}

// Reads a case of this many blobs, or past it where one of them is not there or has no room.
pub fn read_case<'a, R: Read>(
    file: &mut R,
    blobs: u8,
    buf: &'a mut [u8],
) -> Result<Case<'a>, Failure<'a>> {
    let mut case: [&[u8]; 11] = [&[]; 11];
    let mut rest = buf;
    for i in 0..blobs {
        let Some(end) = case_files::read_blob(file, rest, 0) else {
            pass_over(file, blobs - 1 - i, rest);
            return Err(Failure::NoRoom);
        };
        let (blob, others) = rest.split_at_mut(end);
        if i < 11 {
            case[i as usize] = blob;
        }
        rest = others;
    }
    Ok(Case { blobs: case })
}
