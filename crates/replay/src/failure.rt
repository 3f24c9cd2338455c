// Why a case is not as it expects.
use crate::call_answer::Answer;
use crate::hex_bytes::Hex;
use std::io;

// What a call did otherwise: its answer, the bytes that it left of a book, the number or the bytes of an opening, the number, the
// count or the bytes of a record or of the reasons that the network can force, the rows of a trail, or the number or the bytes of
// what would clear a point.
#[derive(Drop)]
pub enum Difference<'a> {
    Answer { want: &'a [u8], answer: Answer<'a> },
    Book,
    Opening,
    Record,
    Trail,
    Reasons,
    Clearing,
}

// With no room for a case, or a blob of a length that its call doesn't take, no call was made, so nothing was found different.
#[derive(Drop)]
pub enum Failure<'a> {
    NoRoom,
    Different(Difference<'a>),
}

impl Difference<'_> {
    // Prints it as the first of a file, at the place of its case.
    pub fn show(&self, rt: &impl Eprint, place: u64) -> io::Result<()> {
        match self {
            Difference::Answer { want, answer } => {
                eprintln!(rt;
                    "first difference: case {place}\nexpected {}\n{answer}",
                    Hex(want)
                )
            }
            Difference::Book => eprintln!(rt; "first difference: the book's bytes in case {place}"),
            Difference::Opening => eprintln!(rt; "first difference: opening in case {place}"),
            Difference::Record => eprintln!(rt; "first difference: the record in case {place}"),
            Difference::Trail => eprintln!(rt; "first difference: the trail in case {place}"),
            Difference::Reasons => {
                eprintln!(rt; "first difference: the reasons that can be forced in case {place}")
            }
            Difference::Clearing => {
                eprintln!(rt; "first difference: what would clear the point in case {place}")
            }
        }
    }
}
