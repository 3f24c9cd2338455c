// What stands in front of the points: the settings, with which the book is opened, and the schedule.
ghost use Rattle.std.specs.Prelude.{◌≡◌, ◌≤◌, length, take};
ghost use Rattle.parts.specs.Limits.{settings_length};
ghost use Rattle.reasons.specs.Refusal.{numbered};
ghost use Rattle.tally_feed.specs.Tally.{last_known_end, schedule_end, front_of, begin, begun_book};
ghost use Rattle.tally_feed.specs.Code.{Begins};

use reasons::Refusal;
use schedule::{LAST_KNOWN, SPAN};

// Where the last known round at a place ends. The place is asked to lie in the slice, as in record's `next`.
#[tactic(auto, unfolding(record::specs::Record::end_from))]
fn last_known_end(s: &[u8], at: usize) -> Option<usize>
    requires { at ≤ length s.now }
    ensures { result ≡ last_known_end s.now at }
{
    record::field_ok(s, at, LAST_KNOWN).then_some(record::next(s, at))
}

// Where the schedule at the front of a slice ends.
pub fn schedule_end(s: &[u8]) -> Option<usize>
    ensures { result ≡ schedule_end s.now }
{
    let mut at = 0;
    for _ in 0..4usize {
        if !record::field_ok(s, at, SPAN) {
            return last_known_end(s, at);
        }
        at = record::next(s, at);
    }
    last_known_end(s, at)
}

// Where the points begin, if settings and a schedule stand before them.
fn front_of(feed: &[u8]) -> Result<usize, Refusal>
    ensures same { numbered result ≡ front_of feed.now }
    ensures begins { Begins feed.now (numbered result) }
{
    if feed.len() < parts::SETTINGS_LENGTH {
        return Err(Refusal::Settings);
    }
    schedule::read_settings(&feed[..parts::SETTINGS_LENGTH]).ok_or(Refusal::Settings)?;
    let after = &feed[parts::SETTINGS_LENGTH..];
    let end = schedule_end(after).ok_or(Refusal::Schedule)?;
    schedule::read_schedule(&after[..end]).ok_or(Refusal::Schedule)?;
    Ok(parts::SETTINGS_LENGTH + end)
}

// Opens the book with the settings of a feed, and says where its points begin. A refusal leaves the book as it was.
pub fn begin(book: &mut [u8], feed: &[u8]) -> Result<usize, Refusal>
    ensures same { numbered result ≡ begin (length book.old) feed.now }
    ensures opened { book.new ≡ begun_book (take settings_length feed.now) book.old (numbered result) }
    ensures begins { Begins feed.now (numbered result) }
{
    let start = front_of(feed)?;
    book::open(book, &feed[..parts::SETTINGS_LENGTH])?;
    Ok(start)
}
