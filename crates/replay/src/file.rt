// The cases of a file.
use crate::case::read_case;
use crate::counts::Counts;
use crate::failure::Failure;
use crate::kind::Kind;
use crate::{
    clearing_case, compose_case, force_case, judge_case, offer_case, open_case, trail_case,
    verify_case,
};
use std::io::Read;

const CASE_ROOM: usize = 1048576;

const PEERS_ROOM: usize = 16384;

const BOOK_ROOM: usize = 65536;

// A book, and how long it is: with no heap the memory for it is fixed, as under the calls that are replayed.
#[derive(Drop)]
pub struct Book {
    pub bytes: [u8; BOOK_ROOM],
    pub len: usize,
}

// Where a case is read, the peers that a call hands back, the book that offers go to, and another book, a record or rows: fixed
// memory as well.
#[derive(Drop)]
pub struct Room {
    case: [u8; CASE_ROOM],
    peers: [u8; PEERS_ROOM],
    book: Book,
    spare: Book,
}

const NO_BOOK: Book = Book {
    bytes: [0; BOOK_ROOM],
    len: 0,
};

impl Room {
    pub fn new() -> Room {
        Room {
            case: [0; CASE_ROOM],
            peers: [0; PEERS_ROOM],
            book: NO_BOOK,
            spare: NO_BOOK,
        }
    }
}

fn replay<'a, R: Read>(
    file: &mut R,
    kind: Kind,
    blobs: u8,
    room: &'a mut Room,
) -> Result<(), Failure<'a>> {
    let Room {
        case: buf,
        peers,
        book,
        spare,
    } = room;
    match kind {
        Kind::Verify => verify_case::replay(read_case(file, blobs, buf)?, peers),
        Kind::Judge => judge_case::replay(read_case(file, blobs, buf)?, peers),
        Kind::OpenApart => open_case::replay(read_case(file, blobs, buf)?, spare),
        Kind::Open => open_case::replay(read_case(file, blobs, buf)?, book),
        Kind::Offer => offer_case::replay(read_case(file, blobs, buf)?, peers, book),
        Kind::OfferToGiven => {
            spare.len = case_files::read_blob(file, &mut spare.bytes, 0).unwrap_or(0);
            let others = blobs.saturating_sub(1);
            offer_case::replay(read_case(file, others, buf)?, peers, spare)
        }
        Kind::Compose => compose_case::replay(read_case(file, blobs, buf)?, &mut spare.bytes),
        Kind::Trail => { trail_case::replay(read_case(file, blobs, buf)?, peers, &mut spare.bytes) }
        Kind::Force => force_case::replay(read_case(file, blobs, buf)?, &mut spare.bytes),
        Kind::Clearing => clearing_case::replay(read_case(file, blobs, buf)?),
        Kind::Other => {
            let _ = read_case(file, blobs, buf);
            Ok(())
        }
    }
}

// Offers go to the book that the file itself opened, and before that to an empty one. A proved loop has to end, and nothing says
// that a file does: so its turns are numbered.
pub fn run<R: Read>(rt: &impl Eprint, file: &mut R, room: &mut Room) -> Counts {
    let mut counts = Counts::default();
    room.book.len = 0;
    for _ in 0..u64::MAX {
        let Some(head) = case_files::read_head(file) else {
            return counts;
        };
        let kind = Kind::from(head.kind);
        counts.add(kind);
        if let Err(failure) = replay(file, kind, head.blobs, room) {
            counts.fail(rt, failure);
        }
    }
    counts
}
