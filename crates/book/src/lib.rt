// The book that keeps judged points: opening it, and offering points to it.
#![tactic(auto)]

mod decide;

ghost use Rattle.std.specs.Prelude.{◌≡◌, ◌+◌, ◌≤◌, length};
ghost use Rattle.parts.specs.Limits.{tag33_length};
ghost use Rattle.point.specs.Said.{said};
ghost use Rattle.schedule.specs.Code.{settings_of};
ghost use Rattle.reasons.specs.Code.{verdict_of};
ghost use Rattle.reasons.specs.Refusal.{refused_number};
ghost use Rattle.judge.specs.Code.{judge_answer_of};
ghost use Rattle.book_read.specs.Code.{IsRead};
ghost use Rattle.books.specs.Calls.{open_number, open_bytes, offer_bytes};
ghost use Rattle.books.specs.Offer.{offer_of};
ghost use Rattle.book.specs.Code.{LeftAt, Marked, ListJudged};

use book_judge::IndexedBook;
use decide::{Decided, Needs};
use id_index::Index;
use point::PointId;
use reasons::{Refusal, Verdict};

// Opens a book: the settings first, zeros after them.
pub fn open(book: &mut [u8], settings: &[u8]) -> Result<(), Refusal>
    ensures value { refused_number result ≡ open_number settings.now (length book.old) }
    ensures book_after { book.new ≡ open_bytes settings.now book.old }
{
    schedule::read_settings(settings).ok_or(Refusal::Settings)?;
    if book.len() < parts::ENTRIES_START || parts::LONGEST_BOOK < book.len() {
        return Err(Refusal::Short);
    }
    write::put_slice(book, 0, settings);
    book[parts::ENTRIES_START..].fill(0);
    Ok(())
}

// Keeps what a verdict leaves, where the entries end.
fn keep(book: &mut [u8], end: usize, rec: &[u8], verdict: Verdict)
    requires { end + length rec.now + tag33_length ≤ length book.old }
    ensures { LeftAt book.old end rec.now (verdict_of verdict) book.new }
{
    if let Some(status) = book_layout::of_verdict(verdict) {
        book_layout::put_kept(book, end, rec, status);
    }
}

// Marks the previous point, if the point names one, and what its certificate covers.
fn mark_covered(book: &mut [u8], index: &Index, needs: &Needs)
    requires { IsRead book.old (settings_of needs.now.conf) needs.now.end index.now }
    ensures { Marked (settings_of needs.now.conf) (said needs.now.point) book.old book.new }
{
    let own = needs.point.info.id;
    if let Some(digest) = needs.point.prev_digest() {
        let prev = PointId {
            round: parts::rounds_back(own.round, 1),
            digest,
            author: own.author,
        };
        book_certify::certify(needs.conf, book, needs.end, index, prev)
    }
}

// Judges an offer whose list is needed, and keeps it. The marks are made first: the list is judged over the book as it then stands.
fn judge_needed(book: &mut [u8], index: &Index, needs: &Needs) -> Verdict
    requires read { IsRead book.old (settings_of needs.now.conf) needs.now.end index.now }
    requires tag33length_in_bounds { needs.now.end + length needs.now.point.rec.now + tag33_length ≤ length book.old }
    ensures { ListJudged book.old index.now needs.now (verdict_of result) book.new }
{
    mark_covered(book, index, needs);
    let indexed = IndexedBook { bytes: book, index };
    let verdict = book_judge::judge_book(needs.conf, needs.required, &needs.point, &indexed);
    keep(book, needs.end, needs.point.rec, verdict);
    verdict
}

// Offers a point to a book: a number of document 01, or its verdict. Fail leaves the book as it was; any other verdict is kept.
// The parameters are document 01's, in its order.
pub fn offer(
    book: &mut [u8],
    schedule: &[u8],
    leader: u8,
    rec: &[u8],
    peers: &mut [u8],
) -> Result<Verdict, Refusal>
    ensures result_value { judge_answer_of result ≡ (offer_bytes book.old
        (offer_of schedule.now leader rec.now peers.old)).answer }
    ensures peers_after { peers.new ≡ (offer_bytes book.old
        (offer_of schedule.now leader rec.now peers.old)).peers }
    ensures book_after { book.new ≡ (offer_bytes book.old
        (offer_of schedule.now leader rec.now peers.old)).after }
{
    let mut index = Index::new();
    match decide::decide(book, schedule, leader, rec, peers, &mut index)? {
        Decided::Judged { verdict, end } => {
            keep(book, end, rec, verdict);
            Ok(verdict)
        }
        Decided::Needed(needs) => Ok(judge_needed(book, &index, &needs)),
    }
}
