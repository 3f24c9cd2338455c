// Where an entry ends, which is asked while the book is read and while it is written.
ghost use Rattle.std.specs.Prelude.{◌≡◌, ◌<◌};
ghost use Rattle.id_index.specs.Code.{count_of};
ghost use Rattle.book_certify.specs.Code.{end_in};

use id_index::Index;

// Where an entry ends: where the next begins, or all of them end.
pub fn end_of(index: &Index, j: usize, end: usize) -> usize
    requires { j < count_of index.now }
    ensures { result ≡ end_in index.now end j }
{
    if j + 1 < index.count() {
        index.place_at(j + 1)
    } else {
        end
    }
}
