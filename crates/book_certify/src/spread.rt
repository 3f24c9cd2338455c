// What the certificate spreads over, and what is asked of an entry by its number, without reading it again.
ghost use Rattle.parts.specs.Bytes.{Bytes};

use crate::entry;
use id_index::Index;
use point::PointId;
use schedule::Settings;

// A book that was read: its settings, its bytes, where its entries end, and their index. And the previous point, from which the
// certificate spreads. That it was read is asked of each function: it says which entries there are, so a ghost field would hold it
// in `∥ ∥₁`. From there it doesn't go into what `take` promises, since `Adds` has a choice in it: no plainer.
#[derive(Drop)]
pub struct Spread<'a> {
    pub conf: Settings,
    pub book: &'a [u8],
    pub end: usize,
    pub index: &'a Index,
    pub prev: PointId,
    ghost bytes: { Bytes book.now },
}

// The maps by which an entry passes its mark on: its includes lie one round back, its witness two. Not PointMap, which has evidence too.
#[derive(Clone, Copy)]
pub enum Deps {
    Includes,
    Witness,
}

impl Deps {
    ghost use Rattle.std.specs.Prelude.{◌≡◌};
    ghost use Rattle.book_certify.specs.Code.{rounds_of};

    pub fn rounds(self) -> usize
        ensures { result ≡ rounds_of self }
    {
        match self {
            Deps::Includes => 1,
            Deps::Witness => 2,
        }
    }
}

impl Spread<'_> {
    ghost use Rattle.std.specs.Prelude.{◌≡◌, ◌<◌};
    ghost use Rattle.id_index.specs.Code.{count_of, id_in, Places};
    ghost use Rattle.schedule.specs.Code.{settings_of};
    ghost use Rattle.book_certify.specs.Code.{DepsTold};
    ghost use Rattle.book_certify.specs.Spread.{IsReadBy};

    // The round of an entry's id. That there is an entry of this number is asked, as in IndexedBook of book_judge.
    pub fn round_of(&self, j: usize) -> u32
        requires places { Places self.now.book.now self.now.index.now }
        requires j_bound { j < count_of self.now.index.now }
        ensures { result ≡ (id_in self.now.book.now self.now.index.now j).round }
    {
        parts::u32_at(self.book, self.index.place_at(j) + 3)
    }

    // Whether an entry passes its mark on: if it lies above genesis and is not ill-formed. 3 is tag 33's byte of an ill-formed entry.
    pub fn has_deps(&self, j: usize) -> bool
        requires read { IsReadBy self.now }
        requires j_bound { j < count_of self.now.index.now }
        ensures { DepsTold (settings_of self.now.conf) self.now.book.now j result }
    {
        self.conf.genesis_round < self.round_of(j)
            && self.book[entry::end_of(self.index, j, self.end) - 105] != 3
    }
}
