// What a case asks for.
#[derive(Clone, Copy)]
pub enum Kind {
    Verify,
    Judge,
    // The book that offers go to stays.
    OpenApart,
    Open,
    Offer,
    // To the book that is the first blob.
    OfferToGiven,
    Compose,
    Trail,
    Force,
    Clearing,
    Other,
}

// The numbers of the files' format.
impl From<u8> for Kind {
    fn from(number: u8) -> Kind {
        match number {
            1 => Kind::Verify,
            2 => Kind::Judge,
            3 => Kind::OpenApart,
            4 => Kind::Open,
            5 => Kind::Offer,
            6 => Kind::OfferToGiven,
            16 => Kind::Compose,
            18 => Kind::Trail,
            19 => Kind::Force,
            20 => Kind::Clearing,
            _ => Kind::Other,
        }
    }
}
