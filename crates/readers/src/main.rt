// Runs the readers of settings, schedules and point records over the cases of a file and over damaged copies of its
// first records, and prints counts, and sums in which everything that was read shows. The file's name is the argument.
#![tactic(auto)]

mod damage;
mod file;
mod mix;
mod point_sum;
mod schedule_sum;
mod tally;

use std::env::Env;
use std::fs::File;
use std::io;

// What holds any path.
const PATH: usize = 4096;

const BUFFER: usize = 65536;

// The first argument, in a buffer; nothing where there is none that is text of the buffer's length.
fn argument<'a>(rt: &impl Env, buf: &'a mut [u8]) -> &'a str {
    let Ok(n) = rt.arg(1, buf) else {
        return "";
    };
    std::str::from_utf8(&buf[..n]).unwrap_or("")
}

fn main(rt: HostRuntime) -> io::Result<()> {
    let mut path = [0u8; PATH];
    let path = argument(&rt, &mut path);
    let mut file = match File::open(&rt, path) {
        Ok(file) => file,
        Err(e) => return eprintln!(rt; "{path}: {e}"),
    };
    let mut buf = [0u8; BUFFER];
    let counts = file::run(&mut file, &mut buf);
    println!(rt; "{counts}")
}
