// A walk over a list: the rows of one reason number.
ghost use Rattle.std.specs.Prelude.{◌≡◌, true, List, ℕ, [], ◌∷◌, ◌++◌, ◌+◌, ◌*◌, ◌≤◌, ◌<◌, is_some};
ghost use Rattle.point.specs.Point.{PointInfo};
ghost use Rattle.schedule.specs.Code.{settings_of};
ghost use Rattle.reasons.specs.Code.{reason_of};
ghost use Rattle.rules.specs.DagPoint.{point_view};
ghost use Rattle.rules.specs.List.{read_list};
ghost use Rattle.rules.specs.Trail.{Row, row};
ghost use Rattle.judge_valid.specs.Code.{point_view_of};
ghost use Rattle.judge_mismatch.specs.Code.{listed};
ghost use Rattle.force_rows.specs.Code.{list_number, kind_rows, Matching, Near};
ghost use Rattle.force_rows.specs.Walk.{NumberPut};

use crate::{entry, same};
use judge_valid::By;
use reasons::InvalidReason;
use trail_rows::{DIRECT, INDIRECT, Place};

// In place of a reason number: there is no greater one.
pub(crate) const NONE: u8 = 255;

// What a walk has come to: how many rows there are, the reason of the last one, and the least reason number above the walk's.
#[derive(Clone, Copy)]
pub(crate) struct Walked {
    pub rows: usize,
    pub last: Option<InvalidReason>,
    pub next: u8,
}

// One more final reason. "each once": equal reasons of one number stand one after the other.
fn put_final(
    so_far: Walked,
    number: u8,
    place: Place,
    reason: InvalidReason,
    out: &mut [u8],
) -> Walked
    requires few { so_far.rows < 100000000 }
    requires later { number < so_far.next }
    ensures put { (rows : List Row) (n : ℕ) (before : List ℕ) → NumberPut rows number n before out.old so_far →
        Near rows (row place.list place.entry (reason_of reason)) →
        NumberPut (rows ++ (row place.list place.entry (reason_of reason) ∷ [])) number n before out.new result }
    ensures most { result.rows ≤ so_far.rows + 1 }
    ensures later { number < result.next }
{
    let found = reason.number();
    if number < found {
        return Walked {
            next: so_far.next.min(found),
            ..so_far
        };
    }
    if found < number || same::is_last(so_far.last, reason) {
        return so_far;
    }
    trail_rows::put_if_fits(out, so_far.rows, place, reason);
    Walked {
        rows: so_far.rows + 1,
        last: Some(reason),
        ..so_far
    }
}

fn list_number(is_target: bool) -> u8
    ensures { result ≡ list_number is_target }
{
    if is_target { INDIRECT } else { DIRECT }
}

// The rows of a reason number that the indirect entries give, or the direct ones, after n others.
pub(crate) fn put_number(
    by: &By,
    is_target: bool,
    number: u8,
    n: usize,
    list: &[u8],
    out: &mut [u8],
) -> Walked
    requires few { n ≤ 65535 * number }
    requires later { number < 255 }
    requires reads { is_some (read_list list.now) ≡ true }
    ensures put { (p : PointInfo) → point_view_of by.now.view ≡ point_view p → Matching p list.now →
        NumberPut (kind_rows (settings_of by.now.conf) by.now.required p is_target 0 (listed list.now)) number n out.old out.new result }
    ensures most { result.rows ≤ n + 65535 }
    ensures later { number < result.next }
{
    let mut so_far = Walked {
        rows: n,
        last: None,
        next: NONE,
    };
    let mut entry: u16 = 0;
    let mut left = list;
    while !left.is_empty() {
        let x = judge_entries::known_entry(left);
        left = &left[x.size..];
        if x.aim.is_some() != is_target {
            continue;
        }
        let place = Place {
            list: list_number(is_target),
            entry,
        };
        entry += 1;
        let Some(reason) = entry::final_reason(by, &x) else {
            continue;
        };
        so_far = put_final(so_far, number, place, reason, out);
    }
    so_far
}
