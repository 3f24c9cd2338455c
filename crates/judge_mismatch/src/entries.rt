// A list that can be read, and its entries.
ghost use Rattle.std.specs.Prelude.{◌≡◌, true, ◌≤◌, length, drop, is_some};
ghost use Rattle.rules.specs.List.{read_list};

use crate::head;
use crate::head::Head;

// A list that can be read, or what is left of one after some of its entries.
#[derive(Clone, Copy)]
pub struct ReadableList<'a> {
    pub bytes: &'a [u8],
    pub ghost reads: { is_some (read_list bytes.now) ≡ true },
}

// The entries of a list from a place on: each with the place where it stands, since they take unequal numbers of bytes.
#[derive(Drop)]
pub struct Entries<'a> {
    pub list: &'a [u8],
    pub at: usize,
    pub ghost within: { at ≤ length list.now },
    pub ghost reads: { is_some (read_list (drop at list.now)) ≡ true },
}

impl<'a> ReadableList<'a> {
    ghost use Rattle.judge_mismatch.specs.Code.{listed};
    ghost use Rattle.judge_mismatch.specs.Entries.{left_of};

    pub fn entries(&self) -> Entries<'a>
        ensures list { result.list.now ≡ self.now.bytes.now }
        ensures at { result.at ≡ 0 }
        ensures left { left_of result ≡ listed self.now.bytes.now }
    {
        Entries {
            list: self.bytes,
            at: 0,
        }
    }

    // What is left of the list from a place on.
    #[tactic(auto, using(base::proofs::Lists::rest))]
    pub fn from_place(&self, at: usize) -> Self
        requires within { at ≤ length self.now.bytes.now }
        requires reads { is_some (read_list (drop at self.now.bytes.now)) ≡ true }
        ensures { result.bytes.now ≡ drop at self.now.bytes.now }
    {
        ReadableList {
            bytes: &self.bytes[at..],
        }
    }
}

impl<'a> Iterator for Entries<'a> {
    ghost use Rattle.std.specs.Prelude.{◌-◌};
    ghost use Rattle.std.specs.Iterator.{at_most};
    ghost use Rattle.judge_mismatch.specs.Entries.{GivesEntry};

    type Item = (usize, Head);

    ghost next_gives = { GivesEntry };

    ghost remaining = { λ s. at_most (length s.list.now - s.at) };

    #[inline(always)]
    #[tactic(auto, using(crate::proofs::Heads::entry_facts))]
    fn next(&mut self) -> Option<(usize, Head)> {
        let at = self.at;
        if self.list.len() <= at {
            return None;
        }
        let head = head::head_of(&self.list[at..]);
        self.at += head.size;
        Some((at, head))
    }
}
