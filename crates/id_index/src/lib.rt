// An index of ids in a slice, by which an id is found without a walk over all of them. Each stands in a field, after its tag and
// length, and the field's place stands for it. The slice is no part of the index: marks are written into a book while its index is
// in use, which a borrow in here would forbid. So each method that reads ids has it beside the index.
#![tactic(auto)]

mod chains;
mod ids;
mod order;

ghost use Rattle.std.specs.Prelude.{◌≤◌};
ghost use Rattle.parts.specs.Limits.{most_kept};

use point::PointId;

// How many ids there are, whether they are sorted, the place of each, and links. No heap: the arrays have room for all ids.
//
// By chains: ids whose digests fall into one bucket are chained. `heads` has for each bucket one more than its last id,
// `links` for each id one more than the last before it in its bucket, 0 if there is none: as `Option`s they would take twice
// the memory. Who writes the ids can make a chain long. So where one has more than LONGEST_CHAIN ids they are sorted
// instead: `links` then has the ids in their order, and an id is found by halving. Sorting moves the links alone, so they lie
// apart from the places; and `is_sorted` is a flag beside them, since an enum around them would be moved as it changes.
#[derive(Drop)]
pub struct Index {
    count: usize,
    is_sorted: bool,
    places: [u32; parts::MOST_KEPT],
    links: [u16; parts::MOST_KEPT],
    heads: [u16; parts::MOST_KEPT],
    ghost room: { count ≤ most_kept },
}

impl Index {
    ghost use Rattle.std.specs.Prelude.{◌≡◌, ◌<◌, ◌^◌};
    ghost use Rattle.point.specs.Code.{point_id_of};
    ghost use Rattle.id_index.specs.Code.{count_of, place_in, IsEmpty, Added, Noted, Built, IsIndex, FoundAt};

    pub fn new() -> Index
        ensures { IsEmpty result }
    {
        Index {
            count: 0,
            is_sorted: false,
            places: [0; parts::MOST_KEPT],
            links: [0; parts::MOST_KEPT],
            heads: [0; parts::MOST_KEPT],
        }
    }

    // How many ids there are.
    pub fn count(&self) -> usize
        ensures { result ≡ count_of self.now }
    {
        self.count
    }

    // The place of the field with a number.
    pub fn place_at(&self, j: usize) -> usize
        requires { j < most_kept }
        ensures { result ≡ place_in self.now j }
    {
        self.places[j] as usize
    }

    // Notes the place of one more field.
    pub fn add(&mut self, place: usize)
        requires count_bound { count_of self.old < most_kept }
        requires place_bound { place < 2 ^ 32 }
        ensures { Added self.old place self.new }
    {
        self.places[self.count] = place as u32;
        self.count += 1;
    }

    // Makes the index of the ids that were noted, unless one stands twice. Why it wasn't done is never asked, so this and what it
    // calls return whether it was, as `HashSet::insert` does.
    #[tactic(auto, using(crate::proofs::Laws::built_chained, crate::proofs::Laws::built_twice))]
    pub fn build(&mut self, s: &[u8]) -> bool
        requires { Noted s.now self.old }
        ensures { Built s.now self.old self.new result }
    {
        if self.chain(s) {
            return true;
        }
        if !self.sort(s) {
            return false;
        }
        self.is_sorted = true;
        true
    }

    // The number of an id, if it is in the index.
    #[tactic(auto, using(crate::proofs::Laws::found_order))]
    pub fn find(&self, s: &[u8], id: PointId) -> Option<usize>
        requires { IsIndex s.now self.now }
        ensures { FoundAt s.now self.now (point_id_of id) result }
    {
        if self.is_sorted {
            self.seek(s, self.count, id).ok()
        } else {
            self.walk_chain(s, self.count, id).ok()
        }
    }
}
