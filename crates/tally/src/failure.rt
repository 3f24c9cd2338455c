// Why a run ends before the feed does: the system's error, and at which side.
use std::fmt::{Display, Formatter, Write};
use std::{fmt, io};

#[derive(Drop)]
pub enum Failure {
    Input(io::Error),
    Output(io::Error),
}

impl Display for Failure {
    fn fmt<W: Write>(&self, f: &mut Formatter<W>) -> fmt::Result {
        match self {
            Failure::Input(e) => write!(f, "standard input: {e}"),
            Failure::Output(e) => write!(f, "standard output: {e}"),
        }
    }
}
