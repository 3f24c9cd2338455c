// Writes the marks of the entries that are reached. The book is written here, so no Spread, which borrows it.
ghost use Rattle.std.specs.Prelude.{◌≡◌, ℕ, Bool, false, ◌-◌, ◌≤◌, ◌<◌, length, get_or, set};
ghost use Rattle.base.specs.Base.{pick};
ghost use Rattle.point.specs.Point.{PointId};
ghost use Rattle.schedule.specs.Settings.{Settings};
ghost use Rattle.id_index.specs.Code.{count_of};
ghost use Rattle.book_read.specs.Code.{IsRead};
ghost use Rattle.book_certify.specs.Code.{end_in, ReachedTold, MarkedBy};

use crate::{Walk, entry};
use id_index::Index;

impl Walk {
    // Marks an entry, if it is reached.
    fn mark_reached(&self, book: &mut [u8], end: usize, index: &Index, j: usize)
        requires j_bound { j < count_of index.now }
        requires end_least { 104 ≤ end_in index.now end j }
        requires end_in_bounds { end_in index.now end j ≤ length book.old }
        ensures { book.new ≡ pick (get_or self.now.reached j false)
            (set book.old (end_in index.now end j - 104) 1) book.old }
    {
        if self.reached[j] {
            book[entry::end_of(index, j, end) - 104] = 1;
        }
    }

    pub fn write_marks(&self, book: &mut [u8], end: usize, index: &Index)
        requires { (c : Settings) × IsRead book.old c end index.now }
        ensures { (test : PointId → Bool) → ReachedTold book.old index.now self.now test →
            MarkedBy book.old test book.new }
    {
        for j in 0..index.count() {
            self.mark_reached(book, end, index, j);
        }
    }
}
