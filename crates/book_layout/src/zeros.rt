// Whether a run of bytes is all zeros.
ghost use Rattle.std.specs.Prelude.{◌≡◌, ◌≤◌, length, drop};
ghost use Rattle.books.specs.Layout.{is_zeros};

// Not `all`, which could stop at each byte and so tests byte by byte: this compiles to sixteen bytes at a time.
fn are_zeros(s: &[u8]) -> bool
    ensures { result ≡ is_zeros s.now }
{
    s.iter().copied().max().unwrap_or(0) == 0
}

// Whether the bytes of tag 33 after the reason are 0.
pub fn is_tail_zero(t: &[u8]) -> bool
    requires { length t.now ≡ 105 }
    ensures { result ≡ is_zeros (drop 3 t.now) }
{
    are_zeros(&t[3..])
}

// Of any run, line by line: nothing is read after the first line that has another byte, however long the slice. With lines of 256 bytes,
// zeros alone take a third more.
fn are_lines_zero(s: &[u8]) -> bool
    ensures { result ≡ is_zeros s.now }
{
    let (lines, rest) = s.as_chunks::<1024>();
    lines.iter().all(|line| are_zeros(line)) && are_zeros(rest)
}

// Whether all bytes from a place on are 0.
pub fn is_zeros(s: &[u8], from: usize) -> bool
    requires { from ≤ length s.now }
    ensures { result ≡ is_zeros (drop from s.now) }
{
    are_lines_zero(&s[from..])
}
