// The walks over the entries of a kind, and over both.
ghost use Rattle.std.specs.Prelude.{◌≡◌, true, ◌<◌, is_some};
ghost use Rattle.point.specs.Point.{PointInfo};
ghost use Rattle.schedule.specs.Code.{settings_of};
ghost use Rattle.rules.specs.DagPoint.{point_view};
ghost use Rattle.rules.specs.List.{read_list, directs, indirects};
ghost use Rattle.rules.specs.Force.{finals, ranked};
ghost use Rattle.judge_valid.specs.Code.{point_view_of};
ghost use Rattle.judge_mismatch.specs.Code.{listed};
ghost use Rattle.trail_rows.specs.Code.{Put};
ghost use Rattle.force_rows.specs.Code.{kind_rows, Matching};

use crate::walk;
use judge_valid::By;

// "by reason number and then by the entry's place": a walk for each reason number that there is, and one before that finds the first.
fn put_kind(by: &By, is_target: bool, list: &[u8], out: &mut [u8]) -> usize
    requires { is_some (read_list list.now) ≡ true }
    ensures few { result < 100000000 }
    ensures put { (p : PointInfo) → point_view_of by.now.view ≡ point_view p → Matching p list.now →
        Put out.old 0 (ranked (kind_rows (settings_of by.now.conf) by.now.required p is_target 0 (listed list.now))) out.new result }
{
    let mut w = walk::put_number(by, is_target, 0, 0, list, out);
    while w.next != walk::NONE {
        w = walk::put_number(by, is_target, w.next, w.rows, list, out);
    }
    w.rows
}

// Puts the rows into the front of a lent list, if they fit; answers how many there are. "If the direct entries give none, the same is asked
// of the indirect entries".
pub fn put_rows(by: &By, list: &[u8], out: &mut [u8]) -> usize
    requires { is_some (read_list list.now) ≡ true }
    ensures few { result < 100000000 }
    ensures put { (p : PointInfo) → point_view_of by.now.view ≡ point_view p → Matching p list.now →
        Put out.old 0 (ranked (finals (settings_of by.now.conf) by.now.required p (directs (listed list.now)) (indirects (listed list.now))))
        out.new result }
{
    let direct = put_kind(by, false, list, out);
    if 0 < direct {
        return direct;
    }
    put_kind(by, true, list, out)
}
