// The direct entries, looked up and judged one by one. By stands beside the book: it is judge_valid's, and judging an entry takes it alone.
ghost use Rattle.std.specs.Prelude.{◌≡◌, not, ◌&&◌, ◌<◌};
ghost use Rattle.judge_valid.specs.Code.{point_view_of};
ghost use Rattle.schedule.specs.Code.{settings_of};
ghost use Rattle.judge_entries.specs.Entry.{entry_of};
ghost use Rattle.judge_step.specs.Code.{direct_step, judging_of};
ghost use Rattle.id_index.specs.Code.{count_of};
ghost use Rattle.books.specs.Lists.{is_valid};
ghost use Rattle.book_layout.specs.Code.{status_of};
ghost use Rattle.book_judge.specs.Code.{versions_of, MapJudged, VersionJudged, VersionsJudged, DirectListJudged};

use crate::look::IndexedBook;
use book_layout::Status;
use judge_entries::Entry;
use judge_step::Judging;
use judge_valid::{By, Quick};
use point::Point;

// What the versions of an author have given so far; seen says that one was Valid, a fact of its own.
#[derive(Clone, Copy)]
struct Versions {
    judging: Judging,
    seen: bool,
}

// Judges an entry.
fn judge_entry(by: &By, entry: &Entry, so_far: Judging) -> Judging
    ensures { judging_of result ≡ direct_step (settings_of by.now.conf) by.now.required (point_view_of by.now.view)
        (judging_of so_far) (entry_of entry.now) }
{
    let gives = judge_step::direct_gives(by, entry);
    judge_step::with_direct(so_far, &gives)
}

// Judges the dependencies of a map. They are never taken as versions, so that it doesn't matter whether one is first valid.
fn judge_map(by: &By, round: u32, rows: &[u8], book: &IndexedBook, so_far: Judging) -> Judging
    ensures { MapJudged (settings_of by.now.conf) by.now.required by.now.view round rows.now
        book.now.bytes.now book.now.index.now (judging_of so_far)
        (judging_of result) }
{
    let quick = Quick::from(by);
    let mut judging = so_far;
    for i in 0..map::count(rows, 64) {
        let entry = book.lookup(&by.view, point::pair_id(rows, i, round));
        if !judge_step::is_quiet(&quick, &entry) {
            judging = judge_entry(by, &entry, judging);
        }
    }
    judging
}

// Whether an entry is Valid and none before it was.
fn is_first(status: Status, seen: bool) -> bool
    ensures { result ≡ (is_valid (status_of status) && not seen) }
{
    matches!(status, Status::Valid) && !seen
}

// Judges the entry with a number, if it is a version of the author's point at the round before.
fn judge_version(by: &By, book: &IndexedBook, j: usize, so_far: Versions) -> Versions
    requires { j < count_of book.now.index.now }
    ensures { VersionJudged (settings_of by.now.conf) by.now.required by.now.view
        book.now.bytes.now book.now.index.now j (versions_of so_far) (versions_of result) }
{
    if !judge_entries::is_own_before(by.view.id, book.id(j)) {
        return so_far;
    }
    let kept = book.kept(j);
    let first = is_first(kept.status, so_far.seen);
    Versions {
        judging: judge_entry(by, &kept.entry(first), so_far.judging),
        seen: so_far.seen || first,
    }
}

// Judges the versions of the author's point at the round before, in the book's order.
fn judge_versions(by: &By, book: &IndexedBook, judging: Judging) -> Judging
    ensures { VersionsJudged (settings_of by.now.conf) by.now.required by.now.view
        book.now.bytes.now book.now.index.now (judging_of judging) (judging_of result) }
{
    let mut so_far = Versions {
        judging,
        seen: false,
    };
    for j in 0..book.index.count() {
        so_far = judge_version(by, book, j, so_far);
    }
    so_far.judging
}

// Judges the direct entries: witness, includes, and with no previous digest the kept versions of the author.
pub fn judge_direct_list(by: &By, point: &Point, book: &IndexedBook) -> Judging
    ensures { DirectListJudged (settings_of by.now.conf) by.now.required by.now.view
        point.now.rec.now book.now.bytes.now book.now.index.now (judging_of result) }
{
    let witness_round = parts::rounds_back(by.view.id.round, 2);
    let includes_round = parts::rounds_back(by.view.id.round, 1);
    let witness = point.witness();
    let includes = point.includes();
    let witness_judged = judge_map(by, witness_round, witness, book, judge_step::START);
    let maps_judged = judge_map(by, includes_round, includes, book, witness_judged);
    match by.view.prev_digest {
        Some(_) => maps_judged,
        None => judge_versions(by, book, maps_judged),
    }
}
