// A line that the program tally prints, and the bytes of it.
#![tactic(auto)]

ghost use Rattle.std.specs.Prelude.{◌≡◌, [], ◌∷◌, ◌++◌, ◌+◌, ◌≤◌, length};
ghost use Rattle.io.specs.Counts.{IsPrefixLen};
ghost use Rattle.tally_line.specs.Text.{decimal, line_bytes, end_bytes};
ghost use Rattle.tally_line.specs.Code.{Put};

// The letter is a byte: a type of the six would ask more of callers.
#[derive(Clone, Copy)]
pub struct Line {
    pub place: u64,
    pub round: u32,
    pub letter: u8,
    pub reason: u8,
    pub number: u8,
}

// No Display: `{}` writes text and may fail, where a letter may be any byte and a line's bytes are always there.

// As many bytes as four numbers of 20 digits, a letter, the spaces between them and the line's end take.
pub const LONGEST: usize = 86;

// Writes bytes at a place, and says where they end.
fn put(out: &mut [u8], at: usize, bytes: &[u8]) -> usize
    requires { at + length bytes.now ≤ length out.old }
    ensures { Put out.old at bytes.now out.new result }
{
    write::put_slice(out, at, bytes);
    at + bytes.len()
}

// The same of a number.
fn put_decimal(out: &mut [u8], at: usize, n: u64) -> usize
    requires { at + 20 ≤ length out.old }
    ensures put { Put out.old at (decimal n) out.new result }
    ensures within { result ≤ at + 20 }
{
    let mut digits = [0u8; 20];
    let k = io::decimal(n, &mut digits);
    put(out, at, &digits[..k])
}

// The same, with a byte after it.
fn put_number(out: &mut [u8], at: usize, n: u64, after: u8) -> usize
    requires { at + 21 ≤ length out.old }
    ensures put { Put out.old at (decimal n ++ (after ∷ [])) out.new result }
    ensures within { result ≤ at + 21 }
{
    let end = put_decimal(out, at, n);
    put(out, end, &[after])
}

// Writes a line's bytes at the front, and says how many they are.
pub fn line_bytes(line: Line, out: &mut [u8; LONGEST]) -> usize
    ensures put { Put out.old 0 (line_bytes line) out.new result }
    ensures counts { IsPrefixLen result out.new }
{
    let place_end = put_number(out, 0, line.place, b' ');
    let round_end = put_number(out, place_end, line.round as u64, b' ');
    let letter_end = put(out, round_end, &[line.letter, b' ']);
    let reason_end = put_number(out, letter_end, line.reason as u64, b' ');
    put_number(out, reason_end, line.number as u64, b'\n')
}

// The same of the last line, `end` and the kept count.
pub fn end_bytes(kept: u64, out: &mut [u8; LONGEST]) -> usize
    ensures put { Put out.old 0 (end_bytes kept) out.new result }
    ensures counts { IsPrefixLen result out.new }
{
    let word_end = put(out, 0, b"end ");
    put_number(out, word_end, kept, b'\n')
}
