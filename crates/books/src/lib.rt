// The definitions of the book, which crates prove their code equal to, and the statement on found books. There is no code here.
#![tactic(auto)]

ghost use Rattle.std.specs.Prelude.{ℕ, List};
ghost use Rattle.books.specs.FoundBook.{FoundBooks};
ghost use Rattle.books.specs.Converted.{OffersConverted};
ghost use Rattle.books.specs.OffersTold.{OffersTold};
ghost use Rattle.books.specs.AnyBytes.{AnyBytes};
ghost use Rattle.books.specs.Example.{Example};
ghost use Rattle.books.specs.AnyMarks.{AnyMarks};
ghost use Rattle.books.specs.SpreadFacts.{SpreadFacts};

// The statement, what follows from it and one book that it speaks of, as a promise: without their proofs this crate is not proved, nor any
// that uses it.
pub fn found_books()
    ensures { FoundBooks × Example }
{}

// Likewise that offers over converted records get what the originals got.
pub fn offers_converted()
    ensures { OffersConverted }
{}

// Likewise that what an offer hands out tells its answer.
pub fn offers_told()
    ensures { OffersTold }
{}

// Likewise what is so of any bytes, whether a book was opened in them or not.
pub fn any_bytes()
    ensures { (s : List ℕ) → AnyBytes s }
{}

// Likewise that links, times and kept dependencies hold whatever the marks.
pub fn any_marks()
    ensures { AnyMarks }
{}

// Likewise how far marks spread in small books.
pub fn spread_facts()
    ensures { SpreadFacts }
{}
