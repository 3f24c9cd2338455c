// A case of kind 3, and of kind 4, where the offers that follow go to this book: settings, the slice's length (4), the
// number (1).
use crate::call_answer::LENT;
use crate::case::Case;
use crate::failure::{Difference, Failure};
use crate::file::Book;
use crate::{call_answer, lent};

// An opened book is its settings and zeros; with a number nothing that was lent has changed.
fn is_laid_out(number: u8, settings: &[u8], book: &[u8]) -> bool {
    if number != 0 {
        return call_answer::is_filled(book, LENT);
    }
    book.starts_with(settings) && call_answer::is_filled(&book[settings.len()..], 0)
}

pub fn replay<'a>(case: Case<'a>, book: &'a mut Book) -> Result<(), Failure<'a>> {
    let [settings, length, want, ..] = case.blobs;
    let Book { bytes, len } = book;
    let book = lent::lend(bytes, length)?;
    *len = book.len();
    let number = wutherdish::wutherdish_open(book, settings);
    if is_laid_out(number, settings, book) && want == [number].as_slice() {
        return Ok(());
    }
    Err(Failure::Different(Difference::Opening))
}
