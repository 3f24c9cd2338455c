// Reads settings, a schedule and points from standard input, keeps the points in a book, and prints a line for each.
#![tactic(auto)]

mod failure;
mod points;
mod print;
mod window;

ghost use Rattle.tally.specs.Code.{Stands};

use failure::Failure;
use points::State;
use std::io::Read;
use tally_feed::Next;

const BOOK: usize = 65536;

// The longest schedule: four spans of 255 peers, and the last known round.
const SCHEDULE: usize = 32675;

// There is no heap: fixed memory of document 01's book, the longest schedule, the longest list of peers, and a part of the input.
#[derive(Drop)]
struct Memory {
    book: [u8; BOOK],
    schedule: [u8; SCHEDULE],
    peers: [u8; parts::PEERS_ROOM],
    buf: [u8; window::ROOM],
}

// Prints the lines of the points from a state on. A proved loop has to end, and nothing says that an input does: so it ends where a
// line could not be counted, by the place that each turn moves on.
fn print_points<R: Read>(
    rt: &impl Print,
    input: &mut R,
    memory: &mut Memory,
    first: State,
) -> Result<(), Failure>
    requires { Stands 65536 32675 first }
{
    let Memory {
        book,
        schedule,
        peers,
        buf,
    } = memory;
    let mut s = first;
    while s.place < u64::MAX {
        let window = window::refill(input, buf, s.window).map_err(Failure::Input)?;
        match points::take_turn(book, schedule, peers, buf, State { window, ..s }) {
            Next::Over => return Ok(()),
            Next::Last(line) => return print::line(rt, line),
            Next::Point { line, next } => {
                print::line(rt, line)?;
                s = next;
            }
        }
    }
    Ok(())
}

// Prints a line for each point, or the one line of settings or a schedule that can't be read.
fn print_lines<R: Read>(
    rt: &impl Print,
    input: &mut R,
    memory: &mut Memory,
) -> Result<(), Failure> {
    let Memory {
        book,
        schedule,
        buf,
        ..
    } = memory;
    let w = window::first(input, buf).map_err(Failure::Input)?;
    let end = w.end;
    match tally_feed::begin(book, &buf[..end]) {
        Err(refusal) => print::line(rt, tally_feed::refused(0, 0, refusal.number())),
        Ok(start) => {
            let first = points::begin_points(schedule, buf, w, start);
            print_points(rt, input, memory, first)
        }
    }
}

// The last line is `end` only if all was read and printed.
fn tally<R: Read>(rt: &impl Print, input: &mut R, memory: &mut Memory) -> Result<(), Failure> {
    print_lines(rt, input, memory)?;
    print::end(rt, tally_feed::kept(&memory.book) as u64)
}

// A call that fails is told on standard error; the exit status is 0 all the same.
fn tell(rt: &(impl Print + Eprint), failure: Failure) {
    let _ = eprintln!(rt; "{failure}");
    if let Failure::Input(_) = failure {
        if let Err(unwritten) = print::unread(rt) {
            let _ = eprintln!(rt; "{unwritten}");
        }
    }
}

fn main(rt: HostRuntime) {
    let mut input = rt.stdin();
    let mut memory = Memory {
        book: [0; BOOK],
        schedule: [0; SCHEDULE],
        peers: [0; parts::PEERS_ROOM],
        buf: [0; window::ROOM],
    };
    if let Err(failure) = tally(&rt, &mut input, &mut memory) {
        tell(&rt, failure);
    }
}
