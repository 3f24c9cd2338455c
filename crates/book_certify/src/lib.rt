// Certification spreads: the previous point of an offered one is marked certified, and so is what its certificate spreads to.
//
// From an entry that is above genesis and not ill-formed the certificate goes on to its includes, one round down, and to its
// witness, two; as far down as the settings' history. The depth of an entry is how many rounds it lies below the previous
// point. The walk goes down depth by depth, each reached from the two above it.
#![tactic(auto)]

mod chain;
mod entry;
mod marks;
mod pass;
mod spread;
mod take;

ghost use Rattle.std.specs.Prelude.{◌≡◌, true, ◌<◌};
ghost use Rattle.point.specs.Point.{same_id};
ghost use Rattle.point.specs.Code.{point_id_of};
ghost use Rattle.schedule.specs.Code.{settings_of};
ghost use Rattle.id_index.specs.Code.{count_of, id_in};
ghost use Rattle.book_read.specs.Code.{IsRead};
ghost use Rattle.book_certify.specs.Code.{IsFresh, Chained, Sound, Done, Walked, Certified};
ghost use Rattle.book_certify.specs.Spread.{IsReadBy};

use id_index::Index;
use point::PointId;
use schedule::Settings;
use spread::Spread;

// Which entries are reached. Those within the history are chained by their depths: `heads` has for each depth one more than its
// last entry, `links` for each entry one more than the last before it of its depth, 0 if there is none: as `Option`s they
// would take twice the memory. No heap: the arrays have room for all entries and depths, and a link with its mark in one array
// would take 4 bytes in place of 3. That the chains are those of these entries is asked of each function that follows them: it
// joins the walk, which changes, and what it goes over.
#[derive(Drop)]
struct Walk {
    reached: [bool; parts::MOST_KEPT],
    links: [u16; parts::MOST_KEPT],
    heads: [u16; 256],
}

impl Walk {
    fn new() -> Walk
        ensures { IsFresh result }
    {
        Walk {
            reached: [false; parts::MOST_KEPT],
            links: [0; parts::MOST_KEPT],
            heads: [0; 256],
        }
    }

    // Goes down through all depths of the history.
    fn descend(&mut self, by: &Spread)
        requires read { IsReadBy by.now }
        requires chained { Chained by.now.book.now by.now.index.now by.now.prev.round
            by.now.conf.commit_history_rounds (count_of by.now.index.now) self.old }
        requires sound { Sound (settings_of by.now.conf) by.now.book.now by.now.index.now
            (point_id_of by.now.prev) self.old }
        requires done { Done (settings_of by.now.conf) by.now.book.now by.now.index.now
            (point_id_of by.now.prev) 1 self.old }
        ensures { Walked (settings_of by.now.conf) by.now.book.now by.now.index.now
            (point_id_of by.now.prev) self.new }
    {
        let history = usize::from(by.conf.commit_history_rounds);
        for depth in 1..=history {
            self.reach_depth(by, depth);
        }
    }

    // Reaches all that the certificate covers, from the entry of the previous point.
    fn reach_all(&mut self, by: &Spread, first: usize)
        requires read { IsReadBy by.now }
        requires first_bound { first < count_of by.now.index.now }
        requires is_first { same_id (id_in by.now.book.now by.now.index.now first) (point_id_of by.now.prev)
            ≡ true }
        requires fresh { IsFresh self.old }
        ensures { Walked (settings_of by.now.conf) by.now.book.now by.now.index.now
            (point_id_of by.now.prev) self.new }
    {
        self.chain_all(by);
        self.reached[first] = true;
        self.descend(by);
    }
}

// Marks the previous point and what its certificate spreads to, if it is kept.
pub fn certify(conf: Settings, book: &mut [u8], end: usize, index: &Index, prev: PointId)
    requires { IsRead book.old (settings_of conf) end index.now }
    ensures { Certified (settings_of conf) book.old index.now (point_id_of prev) book.new }
{
    let Some(first) = index.find(book, prev) else {
        return;
    };
    let mut walk = Walk::new();
    walk.reach_all(
        &Spread {
            conf,
            book,
            end,
            index,
            prev,
        },
        first,
    );
    walk.write_marks(book, end, index);
}
