// The cases of a file, one blob after another through one buffer. Cases of kinds 1 and 2 begin with settings, schedule
// and record; every other blob is passed over.
ghost use Rattle.std.specs.Prelude.{◌≤◌, length};

use crate::damage;
use crate::mix::mix;
use crate::tally::Tally;
use case_files::Head;
use std::fmt;
use std::fmt::{Display, Formatter, Write};
use std::io::Read;

const RECORDS_DAMAGED: u64 = 20;

const LONGEST_DAMAGED: usize = 700;

#[derive(Clone, Copy, Default)]
pub struct Counts {
    cases: u64,
    too_long: u64,
    settings: Tally,
    schedules: Tally,
    records: Tally,
    damaged: u64,
    copies: Tally,
}

impl Display for Counts {
    fn fmt<W: Write>(&self, f: &mut Formatter<W>) -> fmt::Result {
        let sum = mix(
            mix(mix(0, self.settings.sum), self.schedules.sum),
            self.records.sum,
        );
        writeln!(f, "cases {}", self.cases)?;
        writeln!(f, "too long {}", self.too_long)?;
        writeln!(f, "settings usable {}", self.settings.readable)?;
        writeln!(f, "settings unusable {}", self.settings.unreadable)?;
        writeln!(f, "schedules readable {}", self.schedules.readable)?;
        writeln!(f, "schedules unreadable {}", self.schedules.unreadable)?;
        writeln!(f, "records readable {}", self.records.readable)?;
        writeln!(f, "records unreadable {}", self.records.unreadable)?;
        writeln!(f, "sum {sum}")?;
        writeln!(f, "records damaged {}", self.damaged)?;
        writeln!(f, "damaged copies readable {}", self.copies.readable)?;
        writeln!(f, "damaged copies unreadable {}", self.copies.unreadable)?;
        write!(f, "damaged copies sum {}", self.copies.sum)
    }
}

// What a blob of a case is.
#[derive(Clone, Copy)]
enum Blob {
    Settings,
    Schedule,
    Record,
    Other,
}

// Kinds are numbers of the files' format. An enum of them, as replay has, would be asked at this place alone.
fn blob_at(kind: u8, i: u8) -> Blob {
    match (kind, i) {
        (1 | 2, 0) => Blob::Settings,
        (1 | 2, 1) => Blob::Schedule,
        (1 | 2, 2) => Blob::Record,
        _ => Blob::Other,
    }
}

impl Counts {
    // Counts a record, and if it is short and among the first, its damaged copies. The whole buffer comes with its length, since one of
    // them takes the byte after it.
    fn record(&mut self, buf: &mut [u8], n: usize)
        requires { n ≤ length buf.old }
    {
        self.records.record(&buf[..n]);
        if n <= LONGEST_DAMAGED && n < buf.len() && self.damaged < RECORDS_DAMAGED {
            self.damaged += 1;
            damage::damage(&mut self.copies, &mut buf[..n + 1]);
        }
    }

    fn count(&mut self, blob: Blob, buf: &mut [u8], n: usize)
        requires { n ≤ length buf.old }
    {
        match blob {
            Blob::Settings => self.settings.settings(&buf[..n]),
            Blob::Schedule => self.schedules.schedule(&buf[..n]),
            Blob::Record => self.record(buf, n),
            Blob::Other => {}
        }
    }

    fn too_long(&mut self, blob: Blob) {
        if !matches!(blob, Blob::Other) {
            self.too_long = self.too_long.wrapping_add(1);
        }
    }

    // Reads one blob and counts what it is; one that is longer than the buffer is passed over.
    fn run_blob<R: Read>(&mut self, file: &mut R, blob: Blob, buf: &mut [u8]) {
        match case_files::read_blob(file, buf, 0) {
            Some(end) => self.count(blob, buf, end),
            None => self.too_long(blob),
        }
    }

    fn run_case<R: Read>(&mut self, file: &mut R, head: Head, buf: &mut [u8]) {
        self.cases = self.cases.wrapping_add(1);
        for i in 0..head.blobs {
            self.run_blob(file, blob_at(head.kind, i), buf);
        }
    }
}

// A proved loop has to end, and nothing says that a file does: so its turns are numbered, as in replay.
pub fn run<R: Read>(file: &mut R, buf: &mut [u8]) -> Counts {
    let mut c = Counts::default();
    for _ in 0..u64::MAX {
        let Some(head) = case_files::read_head(file) else {
            return c;
        };
        c.run_case(file, head, buf);
    }
    c
}
