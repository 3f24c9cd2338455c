// The points of a feed, one turn each: what a turn gives, and where the next one stands.
ghost use Rattle.std.specs.Prelude.{◌≡◌, ◌-◌, ◌≤◌, ◌<◌, length, take, drop};
ghost use Rattle.parts.specs.Limits.{settings_length};
ghost use Rattle.tally_feed.specs.Code.{book_after, peers_after};
ghost use Rattle.tally.specs.Code.{at_hand, first_state, turn_of, Stands, Leads, step_from};

use crate::window;
use crate::window::Window;
use tally_feed::Next;

// Where the program stands: what is at hand, the place of the next line, and how many bytes of the schedule's buffer are the
// schedule: fixed memory, see Memory in main.rt.
#[derive(Clone, Copy)]
pub struct State {
    pub window: Window,
    pub place: u64,
    pub schedule_len: usize,
}

// Where the first turn stands, of points that begin at a place of the first window, after settings and a schedule. The schedule's
// bytes are copied, since the buffer will hold others.
pub fn begin_points(schedule: &mut [u8], buf: &[u8], w: Window, start: usize) -> State
    requires begins { (settings_length ≤ start) × (start ≤ 32722) × (32675 ≤ length schedule.old) }
    requires held { (w.start ≡ 0) × (start ≤ w.end) × (w.end ≤ length buf.now) }
    ensures same { result ≡ first_state w start }
    ensures copied { take (start - settings_length) schedule.new ≡ drop settings_length (take start (at_hand buf.now w)) }
    ensures stands { Stands (length buf.now) (length schedule.new) result }
{
    write::put_slice(schedule, 0, &buf[parts::SETTINGS_LENGTH..start]);
    State {
        window: window::after(w, start),
        place: 1,
        schedule_len: start - parts::SETTINGS_LENGTH,
    }
}

// Offers the next point at hand to the book, and says where the next turn stands.
pub fn take_turn(
    book: &mut [u8],
    schedule: &[u8],
    peers: &mut [u8],
    buf: &[u8],
    s: State,
) -> Next<State>
    requires { Stands (length buf.now) (length schedule.now) s × (s.place < 18446744073709551615) }
    ensures same { result ≡ turn_of s (step_from s schedule.now book.old peers.old buf.now) }
    ensures left { book.new ≡ book_after book.old
        (step_from s schedule.now book.old peers.old buf.now) }
    ensures unknown { peers.new ≡ peers_after peers.old
        (step_from s schedule.now book.old peers.old buf.now) }
    ensures leads { Leads (length buf.now) (length schedule.now) result }
{
    let w = s.window;
    let schedule = &schedule[..s.schedule_len];
    match tally_feed::next_point(book, schedule, s.place, &buf[w.start..w.end], peers) {
        Next::Over => Next::Over,
        Next::Last(line) => Next::Last(line),
        Next::Point { line, next: size } => Next::Point {
            line,
            next: State {
                window: window::after(w, size),
                place: s.place + 1,
                ..s
            },
        },
    }
}
