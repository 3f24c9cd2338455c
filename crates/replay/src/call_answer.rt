// A call's answer beside the one that a case expects: the number, 0 for a verdict (1); the answer's bytes but the last (113);
// 40 zeros; how many unknown peers (1), and these. With a number, map and role are 255 and so is the verdict's kind.
use crate::failure::{Difference, Failure};
use crate::hex_bytes::Hex;
use std::fmt;
use std::fmt::{Display, Formatter, Write};

// What fills the buffers that are lent.
pub const LENT: u8 = 0xA5;

// The number that a call answered, and the buffers that it was lent.
#[derive(Clone, Copy)]
pub struct Answer<'a> {
    pub number: u8,
    pub bytes: [u8; 114],
    pub peers: &'a [u8],
}

pub fn is_filled(s: &[u8], byte: u8) -> bool {
    s.iter().all(|&x| x == byte)
}

impl<'a> Answer<'a> {
    // After a number, that the case expects no verdict, and that nothing that was lent has changed.
    fn is_number(&self, want: &[u8]) -> bool {
        want.len() == 155
            && want[1] == 255
            && is_filled(&want[2..71], 0)
            && want[71] == 255
            && want[72] == 255
            && is_filled(&want[73..155], 0)
            && is_filled(&self.bytes, LENT)
            && is_filled(self.peers, LENT)
    }

    // After a 0, that the verdict is the expected one, and that nothing has changed after the unknown peers.
    fn is_verdict(&self, want: &[u8]) -> bool {
        if want.len() < 155 {
            return false;
        }
        let n = 32 * want[154] as usize;
        want.len() == 155 + n
            && n <= self.peers.len()
            && want[154] == self.bytes[113]
            && want[1..114] == self.bytes[..113]
            && is_filled(&want[114..154], 0)
            && want[155..] == self.peers[..n]
            && is_filled(&self.peers[n..], LENT)
    }

    fn is_expected(&self, want: &[u8]) -> bool {
        match want.first() {
            Some(0) => self.number == 0 && self.is_verdict(want),
            Some(&number) => self.number == number && self.is_number(want),
            None => false,
        }
    }

    pub fn check(self, want: &'a [u8]) -> Result<(), Failure<'a>> {
        if self.is_expected(want) {
            return Ok(());
        }
        Err(Failure::Different(Difference::Answer { want, answer: self }))
    }
}

impl Display for Answer<'_> {
    fn fmt<W: Write>(&self, f: &mut Formatter<W>) -> fmt::Result {
        write!(
            f,
            "number {:02x}\nanswer {}\npeers {}",
            self.number,
            Hex(&self.bytes),
            Hex(self.peers)
        )
    }
}
