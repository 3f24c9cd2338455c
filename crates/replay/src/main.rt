// Replays stored cases against the code: makes each call that a case lists, with buffers that are filled beforehand, and
// compares every byte of them with the answer that the case expects. Each argument names a file of cases.
// data/judge.bin is a sample of the 6,437 judge cases among the vectors: the two smallest of each outcome (a number, or a
// verdict with its reason) at each pair of flags, and of each outcome with the same map, role, issue, flag and root's reason.
// data/books.bin has openings and offers, with the answers and the bytes of the plain book in Rust, and data/composes.bin points
// that are handed over in parts, with the records of the oracle's writer. data/trails.bin has points that are judged with a trail,
// with all reasons that the Rust sets. data/clears.bin asks what would clear points, and data/forces.bin which reasons the network can
// force: their answers come of judging again, by the Rust, with each point of the list marked, and with each entry where its reason
// decides. Of data/wrong_on_purpose.bin each case has a change in what it expects, so all of them must be found different.
// oracle/README.md says how these are made. Of no file may there be a case for which there is no room.
#![tactic(auto)]

ghost use Rattle.std.specs.Prelude.{◌≤◌, length, IfOk};

mod call_answer;
mod case;
mod clearing_case;
mod compose_case;
mod counted;
mod counts;
mod failure;
mod file;
mod force_case;
mod hex_bytes;
mod judge_case;
mod kind;
mod lent;
mod offer_case;
mod open_case;
mod sha256;
mod trail_case;
mod verify_case;

use file::Room;
use std::env::{Env, FillError};
use std::fs::File;
use std::io;
use std::rt::Files;

// What holds any path.
const PATH: usize = 4096;

fn run_file<R: Files + Print + Eprint>(rt: &R, path: &str, room: &mut Room) -> io::Result<()> {
    let mut file = match File::open(rt, path) {
        Ok(file) => file,
        Err(e) => {
            let _ = eprintln!(rt; "{path}: {e}");
            return Ok(());
        }
    };
    println!(rt; "{path}")?;
    println!(rt; "{}", file::run(rt, &mut file, room))
}

// An argument that was read: nothing where it is no text, or longer than the buffer.
fn path_in(read: Result<usize, FillError>, buf: &[u8]) -> &str
    requires { IfOk read (λ n. n ≤ length buf.now) }
{
    let Ok(n) = read else {
        return "";
    };
    std::str::from_utf8(&buf[..n]).unwrap_or("")
}

fn run_files<R: Env + Files + Print + Eprint>(rt: &R, room: &mut Room) -> io::Result<()> {
    let mut path = [0u8; PATH];
    for i in 1..usize::MAX {
        let read = rt.arg(i, &mut path);
        if let Err(FillError::NotPresent) = read {
            return Ok(());
        }
        run_file(rt, path_in(read, &path), room)?;
    }
    Ok(())
}

fn main(rt: HostRuntime) -> io::Result<()> {
    let mut room = Room::new();
    run_files(&rt, &mut room)
}
