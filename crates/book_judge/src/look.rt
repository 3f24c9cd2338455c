// What a book says of a dependency.
ghost use Rattle.book_judge.specs.Entries.{Entries};

use book_layout::Kept;
use id_index::Index;
use judge_entries::{DagPoint, Entry};
use judge_valid::PointView;
use point::PointId;

// A book's bytes with the index of its entries, which reading them has made. The fact stands in `∥ ∥₁`, since it says where an id stands,
// and a ghost field holds a proposition.
#[derive(Clone, Copy)]
pub struct IndexedBook<'a> {
    pub bytes: &'a [u8],
    pub index: &'a Index,
    pub ghost entries: { ∥ Entries bytes.now index.now ∥₁ },
}

impl<'a> IndexedBook<'a> {
    ghost use Rattle.std.specs.Prelude.{◌≡◌, ◌<◌, drop};
    ghost use Rattle.point.specs.Code.{point_id_of};
    ghost use Rattle.id_index.specs.Code.{count_of, place_in, id_in};
    ghost use Rattle.book_layout.specs.Code.{KeptAt};
    ghost use Rattle.book_judge.specs.Code.{LookedUp, RecordOf};

    // The id of the entry with a number, without its record. That there is an entry of this number is asked, as `place_at` asks for its
    // bound: a struct of number and fact would be made anew for each entry.
    pub fn id(&self, j: usize) -> PointId
        requires { j < count_of self.now.index.now }
        ensures { point_id_of result ≡ id_in self.now.bytes.now self.now.index.now j }
    {
        point::point_id_at(self.bytes, self.index.place_at(j) + 3)
    }

    // The entry with a number. Reading the book has tested it: it is not tested again.
    pub fn kept(&self, j: usize) -> Kept<'a>
        requires { j < count_of self.now.index.now }
        ensures { KeptAt (drop (place_in self.now.index.now j) self.now.bytes.now) result }
    {
        book_layout::known_kept(&self.bytes[self.index.place_at(j)..])
    }

    // What the book says of an id. The previous point counts as certified even if it is not kept.
    pub fn lookup(&self, p: &PointView, id: PointId) -> Entry<'a>
        ensures looked_up { LookedUp self.now.bytes.now self.now.index.now p.now (point_id_of id) result }
        ensures rec { RecordOf self.now.bytes.now self.now.index.now (point_id_of id) result.rec.now }
    {
        let Some(j) = self.index.find(self.bytes, id) else {
            return Entry {
                rec: &[],
                state: DagPoint::NotFound(id),
                certified: judge_list::is_prev(p, id),
                first_valid: false,
            };
        };
        self.kept(j).entry(false)
    }
}
