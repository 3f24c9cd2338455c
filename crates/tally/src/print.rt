// What is printed: each line by one call.
ghost use Rattle.std.specs.Prelude.{◌≤◌, ℕ};

use crate::failure::Failure;
use tally_line::{LONGEST, Line};

fn write(rt: &impl Print, bytes: &[u8]) -> Result<(), Failure> {
    rt.write_all(bytes).map_err(Failure::Output)
}

// Prints what is put at the front of a buffer, and counted.
fn text<F: FnOnce(&mut [u8; LONGEST]) -> usize>(rt: &impl Print, put: F) -> Result<(), Failure>
    requires can { (old : _) → F.pre put old }
    requires counts { (old : _) (n : ℕ) (new : _) → F.post put old n new → n ≤ 86 }
{
    let mut bytes = [0u8; LONGEST];
    let n = put(&mut bytes);
    write(rt, &bytes[..n])
}

pub fn line(rt: &impl Print, line: Line) -> Result<(), Failure> {
    text(
        rt,
        |bytes: &mut [u8; LONGEST]| tally_line::line_bytes(line, bytes),
    )
}

pub fn end(rt: &impl Print, kept: u64) -> Result<(), Failure> {
    text(
        rt,
        |bytes: &mut [u8; LONGEST]| tally_line::end_bytes(kept, bytes),
    )
}

// The last line where the input could not be read to its end.
pub fn unread(rt: &impl Print) -> Result<(), Failure> {
    write(rt, b"unread: standard input\n")
}
