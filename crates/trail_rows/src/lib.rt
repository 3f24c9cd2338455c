// Rows of eight bytes put into a lent slice, as far as they fit, and counted: those of a trail (document 02, U2) and of what the network
// can force (U11).
#![tactic(auto)]

ghost use Rattle.std.specs.Prelude.{◌≡◌, true, [], ◌∷◌, ◌+◌, ◌*◌, ◌≤◌, ◌<◌, length, option_map};
ghost use Rattle.parts.specs.Bytes.{put_at};
ghost use Rattle.reasons.specs.Code.{reason_of};
ghost use Rattle.reasons.specs.Invalid.{invalid_answer};
ghost use Rattle.rules.specs.Trail.{row, rows_at, row_bytes};
ghost use Rattle.rules.specs.Force.{list_of};
ghost use Rattle.trail_rows.specs.Code.{Put};

use answer::Values;
use reasons::InvalidReason;

// Bytes of a row.
pub const WIDTH: usize = 8;

// The numbers of the lists in a row.
pub const DIRECT: u8 = 1;

pub const INDIRECT: u8 = 2;

// Where a row belongs: the number of its list, and the place of its entry there.
#[derive(Clone, Copy)]
pub struct Place {
    pub list: u8,
    pub entry: u16,
}

// The place of a reason that no entry gave.
pub const NO_PLACE: Place = Place { list: 0, entry: 0 };

// Document 01's number of the role that a reason names, 255 for none.
fn role_number(reason: InvalidReason) -> u8
    ensures { result ≡ (invalid_answer (reason_of reason)).role }
{
    Values::from(reason).role
}

// Writes the eight bytes of a row at a place of the slice.
#[tactic(auto, using(parts::proofs::Laws::write_little))]
fn put_row(out: &mut [u8], at: usize, place: Place, reason: InvalidReason)
    requires { at + 8 ≤ length out.old }
    ensures { out.new ≡ put_at out.old at (row_bytes (row place.list place.entry (reason_of reason))) }
{
    let [low, high] = place.entry.to_le_bytes();
    let role = role_number(reason);
    write::put_slice(
        out,
        at,
        &[place.list, low, high, reason.number(), role, 0, 0, 0],
    );
}

// Writes row n, if it fits.
#[tactic(auto, using(crate::proofs::Laws::row_facts))]
pub fn put_if_fits(out: &mut [u8], n: usize, place: Place, reason: InvalidReason)
    requires { n < 100000000 }
    ensures { Put out.old n (row place.list place.entry (reason_of reason) ∷ []) out.new (n + 1) }
{
    if out.len() < WIDTH * n + WIDTH {
        return;
    }
    put_row(out, WIDTH * n, place, reason);
}

// The row of a reason, if there is one, after n others; answers how many there are then.
#[tactic(auto, using(crate::proofs::Laws::put_none))]
pub fn put_reason(out: &mut [u8], n: usize, place: Place, reason: Option<InvalidReason>) -> usize
    requires { n < 100000000 }
    ensures put { Put out.old n (rows_at place.list place.entry (list_of (option_map reason_of reason))) out.new result }
    ensures most { result ≤ n + 1 }
{
    let Some(reason) = reason else {
        return n;
    };
    put_if_fits(out, n, place, reason);
    n + 1
}

// Whether all rows over a list fit for certain: they take at most eight bytes more than the list does, as `room` of RulesFired and of Forced
// says.
pub fn fit_for_certain(list: &[u8], out: &[u8]) -> bool
    ensures { result ≡ true → length list.now + 8 ≤ length out.now }
{
    WIDTH <= out.len() && list.len() <= out.len() - WIDTH
}
