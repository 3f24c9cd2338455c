// The walk over a list that can be read: the rows of its direct entries, or where these give none those of its indirect ones.
ghost use Rattle.std.specs.Prelude.{◌≡◌, true, [], ◌<◌, eqb, is_some, option_map};
ghost use Rattle.base.specs.Base.{when};
ghost use Rattle.point.specs.Point.{PointInfo};
ghost use Rattle.schedule.specs.Code.{settings_of};
ghost use Rattle.reasons.specs.Code.{reason_of};
ghost use Rattle.reasons.specs.Invalid.{DependencyRoundDropped};
ghost use Rattle.rules.specs.DagPoint.{point_view};
ghost use Rattle.rules.specs.List.{read_list, directs, indirects};
ghost use Rattle.rules.specs.Trail.{indirect_rows, list_rows};
ghost use Rattle.rules.specs.Force.{list_of};
ghost use Rattle.judge_valid.specs.Code.{point_view_of};
ghost use Rattle.judge_mismatch.specs.Code.{listed};
ghost use Rattle.trail_rows.specs.Code.{Put};
ghost use Rattle.trail.specs.Walk.{DirectsPut};

use judge_valid::{By, Quick};
use reasons::InvalidReason;
use trail_rows::{DIRECT, INDIRECT, Place};

// What the walk over the direct entries comes to: how many rows, and what is left of the list.
#[derive(Clone, Copy)]
struct Walked<'a> {
    rows: usize,
    left: &'a [u8],
}

// What a dropped entry gives after n rows: "A dropped entry after an earlier reason adds none".
#[tactic(auto, using(crate::proofs::WalkLaws::dropped_told))]
fn dropped_reason(n: usize) -> Option<InvalidReason>
    ensures { list_of (option_map reason_of result) ≡ when (eqb n 0) DependencyRoundDropped }
{
    (n == 0).then_some(InvalidReason::DependencyRoundDropped)
}

// The direct entries, up to the first dropped one.
fn put_directs<'a>(by: &By, list: &'a [u8], out: &mut [u8]) -> Walked<'a>
    requires { is_some (read_list list.now) ≡ true }
    ensures { DirectsPut (settings_of by.now.conf) by.now.required (point_view_of by.now.view) list.now out.old out.new result }
{
    let quick = Quick::from(by);
    let mut rows = 0;
    let mut entry: u16 = 0;
    let mut left = list;
    while !left.is_empty() {
        let x = judge_entries::known_entry(left);
        if x.aim.is_some() {
            return Walked { rows, left };
        }
        let place = Place {
            list: DIRECT,
            entry,
        };
        if x.entry.state.is_dropped() {
            rows = trail_rows::put_reason(out, rows, place, dropped_reason(rows));
            return Walked { rows, left };
        }
        rows = trail_reasons::put_direct(out, rows, place, by, &quick, &x.entry);
        entry += 1;
        left = &left[x.size..];
    }
    Walked { rows, left }
}

// The indirect entries, which are all that is left of a list. A dropped one gives nothing.
fn put_indirects(by: &By, list: &[u8], out: &mut [u8]) -> usize
    requires reads { is_some (read_list list.now) ≡ true }
    requires last { directs (listed list.now) ≡ [] }
    ensures put { (p : PointInfo) → point_view_of by.now.view ≡ point_view p →
        Put out.old 0 (indirect_rows (settings_of by.now.conf) p 0 [] (indirects (listed list.now))) out.new result }
    ensures few { result < 1000000 }
{
    let mut rows = 0;
    let mut target: u16 = 0;
    let mut left = list;
    while !left.is_empty() {
        let x = judge_entries::known_entry(left);
        let Some(role) = x.aim else {
            return rows;
        };
        let place = Place {
            list: INDIRECT,
            entry: target,
        };
        rows = trail_reasons::put_indirect(out, rows, place, by, role, &x.entry);
        target += 1;
        left = &left[x.size..];
    }
    rows
}

// Puts the rows of a list's entries into the front of a trail, if they fit; answers how many there are.
pub fn put_rows(by: &By, list: &[u8], out: &mut [u8]) -> usize
    requires { is_some (read_list list.now) ≡ true }
    ensures put { (p : PointInfo) → point_view_of by.now.view ≡ point_view p →
        Put out.old 0 (list_rows (settings_of by.now.conf) by.now.required p (directs (listed list.now)) (indirects (listed list.now)))
        out.new result }
    ensures few { result < 1000000 }
{
    let direct = put_directs(by, list, out);
    if 0 < direct.rows {
        return direct.rows;
    }
    put_indirects(by, direct.left, out)
}
