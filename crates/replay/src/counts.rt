// How many cases there were of each kind, how many of them were answered otherwise, for how many there was no room, and the
// place of the last, from 1.
use crate::failure::Failure;
use crate::kind::Kind;
use std::fmt;
use std::fmt::{Display, Formatter, Write};

#[derive(Clone, Copy, Default)]
pub struct Counts {
    place: u64,
    verify: u64,
    judge: u64,
    open: u64,
    offer: u64,
    compose: u64,
    trail: u64,
    force: u64,
    clearing: u64,
    other: u64,
    different: u64,
    no_room: u64,
}

impl Counts {
    // One more case.
    pub fn add(&mut self, kind: Kind) {
        self.place = self.place.wrapping_add(1);
        let count = match kind {
            Kind::Verify => &mut self.verify,
            Kind::Judge => &mut self.judge,
            Kind::Open | Kind::OpenApart => &mut self.open,
            Kind::Offer | Kind::OfferToGiven => &mut self.offer,
            Kind::Compose => &mut self.compose,
            Kind::Trail => &mut self.trail,
            Kind::Force => &mut self.force,
            Kind::Clearing => &mut self.clearing,
            Kind::Other => &mut self.other,
        };
        *count = count.wrapping_add(1);
    }

    // The last case has failed. That is told on standard error, but of the differences only the first, since the cases that
    // are wrong on purpose all differ. What standard error does not take is lost.
    pub fn fail(&mut self, rt: &impl Eprint, failure: Failure<'_>) {
        let place = self.place;
        match failure {
            Failure::NoRoom => {
                let _ = eprintln!(rt; "no room: case {place}");
                self.no_room = self.no_room.wrapping_add(1);
            }
            Failure::Different(difference) => {
                if self.different == 0 {
                    let _ = difference.show(rt, place);
                }
                self.different = self.different.wrapping_add(1);
            }
        }
    }
}

impl Display for Counts {
    fn fmt<W: Write>(&self, f: &mut Formatter<W>) -> fmt::Result {
        writeln!(f, "verify cases {}", self.verify)?;
        writeln!(f, "judge cases {}", self.judge)?;
        writeln!(f, "openings {}", self.open)?;
        writeln!(f, "offers {}", self.offer)?;
        writeln!(f, "composed points {}", self.compose)?;
        writeln!(f, "trails {}", self.trail)?;
        writeln!(f, "force cases {}", self.force)?;
        writeln!(f, "clearing cases {}", self.clearing)?;
        writeln!(f, "other cases {}", self.other)?;
        writeln!(f, "no room {}", self.no_room)?;
        write!(f, "different {} of {}", self.different, self.place)
    }
}
