// What a call leaves that fills an output and counts what it wrote, beside what a case expects: the number (1), the count (4) and what
// was written; with a number the count is 0 and nothing was.
use crate::call_answer::{LENT, is_filled};

// What the count holds before a call.
pub const COUNT: u32 = 0xA5A5A5A5;

#[derive(Clone, Copy)]
pub struct Counted<'a> {
    pub number: u8,
    pub count: u32,
    pub out: &'a [u8],
}

impl Counted<'_> {
    // After a number, that the case expects nothing written, and that nothing that was lent has changed.
    fn is_number(&self, want: &[u8]) -> bool {
        want.len() == 5
            && is_filled(&want[1..], 0)
            && self.count == COUNT
            && is_filled(self.out, LENT)
    }

    // After a 0, that what the count says, of so many bytes each, is the expected, and that nothing has changed after it.
    fn is_written(&self, want: &[u8], size: usize) -> bool {
        let Some(n) = (self.count as usize).checked_mul(size) else {
            return false;
        };
        let Some((front, rest)) = self.out.split_at_checked(n) else {
            return false;
        };
        let Some((head, written)) = want.split_at_checked(5) else {
            return false;
        };
        head[1..] == self.count.to_le_bytes()[..] && written == front && is_filled(rest, LENT)
    }

    pub fn is_expected(&self, want: &[u8], size: usize) -> bool {
        match want.first() {
            Some(0) => self.number == 0 && self.is_written(want, size),
            Some(&number) => self.number == number && self.is_number(want),
            None => false,
        }
    }
}
