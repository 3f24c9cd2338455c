// Reads a book: its settings, its entries and the zeros after them, and makes an index of the entries.
#![tactic(auto)]

ghost use Rattle.std.specs.Prelude.{◌≡◌, true, not, ◌≤◌, length, get_or, eqb};
ghost use Rattle.parts.specs.Limits.{entries_start, longest_book};
ghost use Rattle.id_index.specs.Code.{IsEmpty};
ghost use Rattle.book_read.specs.Code.{Reading, EntryRead, EntriesRead, BookRead};

use id_index::Index;
use schedule::Settings;

// Whether an entry begins at a place: a 0 or the book's end ends the entries.
fn is_entry_at(book: &[u8], place: usize) -> bool
    ensures { result ≡ not (eqb (get_or book.now place 0) 0) }
{
    book.get(place).is_some_and(|&byte| byte != 0)
}

// Reads the entry at a place, and notes the place, unless there are too many.
fn read_entry(book: &[u8], place: usize, index: &mut Index) -> Option<usize>
    requires reading { Reading book.now place index.old }
    requires book_len_bound { (length book.now ≤ longest_book) × (not (eqb (get_or book.now place 0) 0) ≡ true) }
    ensures { EntryRead book.now place index.new result }
{
    if index.count() == parts::MOST_KEPT {
        return None;
    }
    let size = book_layout::kept_end(&book[place..])?;
    index.add(place);
    let end = place + size + parts::TAG33_LENGTH;
    Some(end)
}

// A `while`: the index counts the entries that are read, and where one ends says where the next begins. An iterator of them would have
// the index too, and would have to be told to end after an entry that doesn't read.
fn read_entries(book: &[u8], index: &mut Index) -> Option<usize>
    requires entries_start_in_bounds { (entries_start ≤ length book.now) × (length book.now ≤ longest_book) }
    requires index_value { IsEmpty index.old }
    ensures { EntriesRead book.now index.new result }
{
    let mut end = parts::ENTRIES_START;
    while is_entry_at(book, end) {
        end = read_entry(book, end, index)?;
    }
    Some(end)
}

// The index is made last, of all entries: so whether an id stands twice is asked once. It is the caller's, since as a part of
// the result its 32 KB would be moved.
pub fn read_book(book: &[u8], index: &mut Index) -> Option<(Settings, usize)>
    requires { IsEmpty index.old }
    ensures { BookRead book.now index.new result }
{
    if book.len() < parts::ENTRIES_START || parts::LONGEST_BOOK < book.len() {
        return None;
    }
    let conf = schedule::read_settings(&book[..parts::SETTINGS_LENGTH])?;
    let end = read_entries(book, index)?;
    if !book_layout::is_zeros(book, end) {
        return None;
    }
    if !index.build(book) {
        return None;
    }
    Some((conf, end))
}
