// The part of standard input that is at hand.
ghost use Rattle.std.specs.Prelude.{◌≡◌, ◌+◌, ◌-◌, ◌≤◌, ◌⊎◌, length, take, true, Ok, IfOk, OnErr};
ghost use Rattle.std.specs.Io.KnownBytes.{IsAtEnd};
ghost use Rattle.tally.specs.Code.{Lies, without, at_hand, Filled, Refilled};

use std::io;
use std::io::Read;

// The longest leader byte and record. With as much at hand the next point gives what it gives with all at hand (`step_part` in
// proofs/AtHand.antt of crate tally_feed), and so do settings and a schedule (`begin_part` there).
const ENOUGH: usize = 41127;

pub const ROOM: usize = 65536;

// What was read and not used yet stands in a buffer from a start to an end. Nothing follows it if it is all: a fact of the input,
// on which neither place depends. Places, and no slice: the buffer is refilled.
#[derive(Clone, Copy)]
pub struct Window {
    pub start: usize,
    pub end: usize,
    pub is_all: bool,
}

// Reads after the n bytes at the front until the buffer is full, or the input ends. The whole buffer comes with n, since the window's
// places are those of the buffer. `read_to_end` wants memory that grows, and `read_exact` does not say how much it read, so the loop
// stands here.
fn read_after<R: Read>(input: &mut R, buf: &mut [u8], n: usize) -> io::Result<Window>
    requires { n ≤ length buf.old }
    ensures front { take n buf.new ≡ take n buf.old }
    ensures filled { IfOk result (Filled n (length buf.old)) }
    ensures ended { IfOk result (λ w. w.is_all ≡ true → IsAtEnd (R.remaining input.new)) }
{
    let mut end = n;
    while end < buf.len() {
        let more = input.read(&mut buf[end..])?;
        if more == 0 {
            return Ok(Window {
                start: 0,
                end,
                is_all: true,
            });
        }
        end += more;
    }
    Ok(Window {
        start: 0,
        end,
        is_all: false,
    })
}

pub fn first<R: Read>(input: &mut R, buf: &mut [u8]) -> io::Result<Window>
    ensures filled { IfOk result (Filled 0 (length buf.old)) }
    ensures ended { IfOk result (λ w. w.is_all ≡ true → IsAtEnd (R.remaining input.new)) }
{
    read_after(input, buf, 0)
}

// With enough at hand for a point, or all that is left.
pub fn refill<R: Read>(input: &mut R, buf: &mut [u8], w: Window) -> io::Result<Window>
    requires { Lies (length buf.old) w × (41127 ≤ length buf.old) }
    ensures refilled { IfOk result (Refilled buf.old w buf.new) }
    ensures still { (w.is_all ≡ true) ⊎ (41127 ≤ w.end - w.start) → (result ≡ Ok w) × (buf.new ≡ buf.old) }
    ensures failed { OnErr result (take (w.end - w.start) buf.new ≡ at_hand buf.old w) }
    ensures ended { IfOk result (λ v. v.is_all ≡ true → (w.is_all ≡ true) ⊎ IsAtEnd (R.remaining input.new)) }
{
    let n = w.end - w.start;
    if ENOUGH <= n || w.is_all {
        return Ok(w);
    }
    buf.copy_within(w.start..w.end, 0);
    read_after(input, buf, n)
}

// Without the first n bytes.
pub fn after(w: Window, n: usize) -> Window
    requires { w.start + n ≤ w.end }
    ensures { result ≡ without w n }
{
    Window {
        start: w.start + n,
        ..w
    }
}
