// The next point of a feed: its line, and what it leaves in the book.
ghost use Rattle.std.specs.Prelude.{◌≡◌, ◌≤◌, length};
ghost use Rattle.tally_feed.specs.Tally.{record_size, step, kept_in};
ghost use Rattle.tally_feed.specs.Code.{next_of, book_after, peers_after, Within};

use crate::answers;
use id_index::Index;
use tally_line::Line;

// What comes next: nothing, the line of a record that can't be read, or a point's line and what goes on after it: here how many bytes
// the point takes, and in the program where its next turn stands. No Option<(Line, Option<T>)>, which is no plainer: its two ends
// differ, and each has its name here.
#[derive(Clone, Copy)]
pub enum Next<T> {
    Over,
    Last(Line),
    Point { line: Line, next: T },
}

// How many bytes the record at the front of a slice takes: all of them where none ends there.
fn record_size(s: &[u8]) -> usize
    ensures same { result ≡ record_size s.now }
    ensures within { result ≤ length s.now }
{
    record::record_end(s).unwrap_or(s.len())
}

// Offers the next point of a feed to a book. Its line has the place that the caller counted.
pub fn next_point(
    book: &mut [u8],
    schedule: &[u8],
    place: u64,
    feed: &[u8],
    peers: &mut [u8],
) -> Next<usize>
    ensures same { result ≡ next_of (step schedule.now book.old peers.old place feed.now) }
    ensures left { book.new ≡ book_after book.old
        (step schedule.now book.old peers.old place feed.now) }
    ensures unknown { peers.new ≡ peers_after peers.old
        (step schedule.now book.old peers.old place feed.now) }
    ensures within { Within (length feed.now) result }
{
    if feed.is_empty() {
        return Next::Over;
    }
    let size = record_size(&feed[1..]) + 1;
    let rec = &feed[1..size];
    let answer = book::offer(book, schedule, feed[0], rec, peers);
    match point::read_point(rec) {
        Some(point) => Next::Point {
            line: answers::line_of(place, point.info.id.round, answer),
            next: size,
        },
        None => Next::Last(answers::line_of(place, 0, answer)),
    }
}

// How many points a book keeps, and 0 of bytes that are no book, as the line `end 0` says.
#[tactic(auto, unfolding(crate::specs::Tally::kept_in))]
pub fn kept(book: &[u8]) -> usize
    ensures { result ≡ kept_in book.now }
{
    let mut index = Index::new();
    book_read::read_book(book, &mut index).map_or(0, |_| index.count())
}
