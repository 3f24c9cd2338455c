// What a reached entry passes its mark on to.
ghost use Rattle.std.specs.Prelude.{◌≡◌, true, ◌≤◌, ◌<◌, length};
ghost use Rattle.map.specs.Rows.{pairs_of};
ghost use Rattle.point.specs.Point.{same_id};
ghost use Rattle.point.specs.Code.{point_id_of};
ghost use Rattle.schedule.specs.Code.{settings_of};
ghost use Rattle.rules.specs.Mismatch.{is_among};
ghost use Rattle.id_index.specs.Code.{count_of, IndexOf};
ghost use Rattle.book_certify.specs.Code.{rows_back, Adds, Taken};
ghost use Rattle.book_certify.specs.Spread.{IsReadBy};

use crate::Walk;
use crate::spread::{Deps, Spread};
use point::{INCLUDES, PointId};

// The bytes of a map of the record at the front of a slice.
fn rows_back(s: &[u8], deps: Deps) -> &[u8]
    requires { 82 ≤ length s.now }
    ensures { result.now ≡ rows_back deps s.now }
{
    match deps {
        Deps::Includes => record::content_at(s, INCLUDES),
        Deps::Witness => record::content_at(s, record::next(s, INCLUDES)),
    }
}

impl Walk {
    // Reaches the entry of an id, if it is kept.
    fn reach_id(&mut self, by: &Spread, id: PointId)
        requires { IndexOf by.now.book.now by.now.index.now true }
        ensures { Adds by.now.book.now by.now.index.now (same_id (point_id_of id)) self.old self.new }
    {
        if let Some(j) = by.index.find(by.book, id) {
            self.reached[j] = true;
        }
    }

    // Reaches the dependencies that a map's rows name at a round.
    fn reach_rows(&mut self, by: &Spread, round: u32, rows: &[u8])
        requires { IndexOf by.now.book.now by.now.index.now true }
        ensures { Adds by.now.book.now by.now.index.now (is_among round (pairs_of rows.now)) self.old self.new }
    {
        for i in 0..map::count(rows, 64) {
            self.reach_id(by, point::pair_id(rows, i, round));
        }
    }

    // Reaches what an entry passes its mark on to in one of its maps, if it is reached itself.
    pub fn take(&mut self, by: &Spread, j: usize, deps: Deps)
        requires read { IsReadBy by.now }
        requires j_bound { j < count_of by.now.index.now }
        ensures { Taken (settings_of by.now.conf) by.now.book.now by.now.index.now j deps self.old self.new }
    {
        if !self.reached[j] || !by.has_deps(j) {
            return;
        }
        let place = by.index.place_at(j);
        let round = parts::rounds_back(by.round_of(j), deps.rounds() as u32);
        let rows = rows_back(&by.book[place..], deps);
        self.reach_rows(by, round, rows);
    }
}
