// What an offer comes to over the book as it stands: a refusal, a verdict, or that its list is needed.
ghost use Rattle.std.specs.Prelude.{◌≡◌, ◌||◌, List, ℕ, ◌+◌, ◌-◌, ◌≤◌, length, leb, ltb};
ghost use Rattle.parts.specs.Bytes.{Bytes};
ghost use Rattle.parts.specs.Limits.{tag33_length, most_kept, peers_room};
ghost use Rattle.point.specs.Code.{point_id_of};
ghost use Rattle.schedule.specs.Code.{settings_of};
ghost use Rattle.id_index.specs.Code.{IsEmpty, IsIndex};
ghost use Rattle.id_index.specs.declared.Index as index;
ghost use Rattle.books.specs.Offer.{offer_of};
ghost use Rattle.book.specs.Code.{input_of, InputTested, RoomTested, Ready, Decides};

use id_index::Index;
use judge::Before;
use point::{Point, PointId, PointInfo};
use reasons::{Refusal, Verdict};
use schedule::{PeerSchedule, Settings};

// What was read of an offer to a book with these settings.
#[derive(Clone, Copy)]
struct Input<'a> {
    conf: Settings,
    schedule: PeerSchedule<'a>,
    point: Point<'a>,
}

// What judging by the list needs: the settings, the point, whether regular points are required, which is a fact of its own, and where
// the entries end.
#[derive(Clone, Copy)]
pub struct Needs<'a> {
    pub conf: Settings,
    pub point: Point<'a>,
    pub required: bool,
    pub end: usize,
}

// A verdict and where the entries end, or that the list is needed. No Result, since neither is a failure.
#[derive(Clone, Copy)]
pub enum Decided<'a> {
    Judged { verdict: Verdict, end: usize },
    Needed(Needs<'a>),
}

// The numbers 4 and 5 in their order. The peer buffer has `room` bytes.
fn test_input(info: PointInfo, leader: u8, room: usize) -> Result<(), Refusal>
    ensures { (rec : List ℕ) → InputTested rec info leader room result }
{
    if !info.is_in_domain() || 1 < leader {
        return Err(Refusal::Domain);
    }
    if room < parts::PEERS_ROOM {
        return Err(Refusal::Short);
    }
    Ok(())
}

// Whether a book of `len` bytes, whose n entries end at a place, has no room for a record of a length.
fn is_full(len: usize, n: usize, end: usize, rec_len: usize) -> bool
    requires { end ≤ len }
    ensures { result ≡ (leb most_kept n || ltb (len - end) (rec_len + tag33_length)) }
{
    let room = len - end;
    parts::MOST_KEPT <= n || room < parts::TAG33_LENGTH || room - parts::TAG33_LENGTH < rec_len
}

// The numbers 11 and 12 in their order.
fn test_room(book: &[u8], end: usize, index: &Index, rec: &[u8], id: PointId) -> Result<(), Refusal>
    requires { IsIndex book.now index.now × (end ≤ length book.now) }
    ensures { RoomTested book.now end index.now rec.now (point_id_of id) result }
{
    if index.find(book, id).is_some() {
        return Err(Refusal::Kept);
    }
    if is_full(book.len(), index.count(), end, rec.len()) {
        return Err(Refusal::Full);
    }
    Ok(())
}

// Judges an offer that passed the tests, as far as no list is needed. The buffer's room is asked for as verify_peers does.
fn judge_input<'a>(
    input: &Input<'a>,
    end: usize,
    leader: u8,
    peers: &mut [u8],
) -> Result<Decided<'a>, Refusal>
    requires { peers_room ≤ length peers.old }
    ensures { (s : List ℕ) (x : index.Index) → Bytes s →
        Ready s (offer_of input.now.schedule.bytes.now leader input.now.point.rec.now peers.old)
        (settings_of input.now.conf) end x (input_of input.now) →
        Decides s (offer_of input.now.schedule.bytes.now leader input.now.point.rec.now peers.old) result x peers.new }
{
    let conf = input.conf;
    let point = input.point;
    match judge::before_list(conf, &input.schedule, &point, leader == 1, peers)? {
        Before::Judged(verdict) => Ok(Decided::Judged { verdict, end }),
        Before::Needed(required) => Ok(Decided::Needed(Needs {
            conf,
            point,
            required,
            end,
        })),
    }
}

// Decides an offer over a book as it stands, the numbers 10, 2 to 5, 11 and 12 first, and makes the book's index.
// The index is the caller's: as a part of the result its 32 KB would be moved.
pub fn decide<'a>(
    book: &[u8],
    schedule: &'a [u8],
    leader: u8,
    rec: &'a [u8],
    peers: &mut [u8],
    index: &mut Index,
) -> Result<Decided<'a>, Refusal>
    requires { IsEmpty index.old }
    ensures { Decides book.now (offer_of schedule.now leader rec.now peers.old) result
        index.new peers.new }
{
    let (conf, end) = book_read::read_book(book, index).ok_or(Refusal::Book)?;
    let peer_schedule = schedule::read_peer_schedule(schedule).ok_or(Refusal::Schedule)?;
    let point = point::read_point(rec).ok_or(Refusal::Record)?;
    test_input(point.info, leader, peers.len())?;
    test_room(book, end, index, rec, point.info.id)?;
    let input = Input {
        conf,
        schedule: peer_schedule,
        point,
    };
    judge_input(&input, end, leader, peers)
}
