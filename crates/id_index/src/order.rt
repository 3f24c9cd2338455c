// Ids in their order: by digest, author and round.
ghost use Rattle.std.specs.Prelude.{◌≡◌, ◌+◌, ◌≤◌, ◌<◌};
ghost use Rattle.point.specs.Code.{point_id_of};
ghost use Rattle.id_index.specs.Code.{count_of, SameFront, Places, Sorted, InOrder, SortedNext, AllSorted};

use crate::{Index, ids};
use point::PointId;
use std::cmp::Ordering;

impl Index {
    // The number of an id among the first n, which are sorted, or else how many of these lie below it. `binary_search_by` asks
    // for a closure that may be called at any number: this one may only at those of ids. `map::search` halves rows alike: one
    // function for both would take the comparison as a closure, with a clause for where it may be called.
    pub(crate) fn seek(&self, s: &[u8], n: usize, id: PointId) -> Result<usize, usize>
        requires { Places s.now self.now × ((n ≤ count_of self.now) × Sorted s.now self.now n) }
        ensures { InOrder s.now self.now n (point_id_of id) result }
    {
        let mut low = 0;
        let mut high = n;
        while low < high {
            let middle = low + (high - low) / 2;
            let j = usize::from(self.links[middle]);
            match ids::compare(s, self.place_at(j), id) {
                Ordering::Less => low = middle + 1,
                Ordering::Greater => high = middle,
                Ordering::Equal => return Ok(j),
            }
        }
        Err(low)
    }

    // Puts one more id among those before it, which are sorted, unless it stands there.
    #[tactic(auto, using(crate::proofs::Laws::one_sorted))]
    fn sort_next(&mut self, s: &[u8], j: usize) -> bool
        requires { Places s.now self.old × ((j < count_of self.old) × Sorted s.now self.old j) }
        ensures same_front { SameFront self.old self.new }
        ensures sorted_next { SortedNext s.now self.new j result }
    {
        let id = point::point_id_at(s, self.place_at(j) + 3);
        let Err(below) = self.seek(s, j, id) else {
            return false;
        };
        self.links.copy_within(below..j, below + 1);
        self.links[below] = j as u16;
        true
    }

    // Sorts all ids, unless one stands twice. A `for`, as in `chain`.
    pub(crate) fn sort(&mut self, s: &[u8]) -> bool
        requires { Places s.now self.old }
        ensures same_front { SameFront self.old self.new }
        ensures all_sorted { AllSorted s.now self.new result }
    {
        for j in 0..self.count {
            if !self.sort_next(s, j) {
                return false;
            }
        }
        true
    }
}
