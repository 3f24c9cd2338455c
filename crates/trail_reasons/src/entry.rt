// The rows of an entry, by how it is taken.
ghost use Rattle.std.specs.Prelude.{◌≡◌, ◌+◌, ◌≤◌, ◌<◌, true};
ghost use Rattle.schedule.specs.Code.{settings_of};
ghost use Rattle.rules.specs.Trail.{rows_at};
ghost use Rattle.rules.specs.Validate.{point_rows, indirect_point_rows, dependency_trail, entry_findings};
ghost use Rattle.judge_entries.specs.Entry.{entry_of};
ghost use Rattle.judge_valid.specs.Code.{point_view_of, QuickOf};
ghost use Rattle.trail_rows.specs.Code.{Put};
ghost use Rattle.trail_reasons.specs.Code.{Passes};

use crate::dependency;
use judge_entries::{DagPoint, Entry};
use judge_reason::Taken;
use judge_valid::{By, DepView, Quick};
use point::AnchorStageRole;
use trail_rows::{Place, put_reason};

// Of a direct entry that is taken as a dependency.
fn put_as_dependency(
    out: &mut [u8],
    n: usize,
    place: Place,
    by: &By,
    is_prev_point: bool,
    entry: &Entry,
) -> usize
    requires { n < 1000000 }
    ensures put { Put out.old n
        (rows_at place.list place.entry
        (dependency_trail (point_rows (settings_of by.now.conf) by.now.required is_prev_point (point_view_of by.now.view))
        (entry_of entry.now).state))
        out.new result }
    ensures most { result ≤ n + 10 }
{
    match entry.point() {
        Some(point) => {
            dependency::put_dependency(out, n, place, by, is_prev_point, &DepView::from(&point))
        }
        None => put_reason(out, n, place, judge_reason::absent_reason(&entry.state)),
    }
}

// Whether an entry's point passes the quick test, and so gives no reason, whatever its state. Judging asks it of valid points alone, since
// others can have a root cause.
fn passes(quick: &Quick, entry: &Entry) -> bool
    ensures { result ≡ true → Passes quick.now entry.now }
{
    match entry.state {
        DagPoint::Valid(_) | DagPoint::TransInvalid { .. } | DagPoint::Invalid { .. } => {
            judge_valid::is_quick(quick, entry.rec)
        }
        _ => false,
    }
}

// Of a direct entry that was not dropped, after n rows; answers how many there are then.
pub fn put_direct(
    out: &mut [u8],
    n: usize,
    place: Place,
    by: &By,
    quick: &Quick,
    entry: &Entry,
) -> usize
    requires few { n < 1000000 }
    requires quick { QuickOf (settings_of by.now.conf) (point_view_of by.now.view) quick.now }
    ensures put { Put out.old n
        (rows_at place.list place.entry
        (entry_findings (settings_of by.now.conf) by.now.required (point_view_of by.now.view) (entry_of entry.now)).trail)
        out.new result }
    ensures most { result ≤ n + 10 }
{
    if passes(quick, entry) {
        return n;
    }
    match judge_reason::how_taken(&by.view, entry.state.id()) {
        Taken::AsDependency { is_prev_point } => {
            put_as_dependency(out, n, place, by, is_prev_point, entry)
        }
        Taken::AsVersion => {
            let x = &entry.state;
            let reason = judge_reason::version_reason(x, entry.certified, entry.first_valid);
            put_reason(out, n, place, reason)
        }
        Taken::Aside => n,
    }
}

// Of the entry of an indirect link's target, after n rows.
pub fn put_indirect(
    out: &mut [u8],
    n: usize,
    place: Place,
    by: &By,
    role: AnchorStageRole,
    entry: &Entry,
) -> usize
    requires { n < 1000000 }
    ensures put { Put out.old n
        (rows_at place.list place.entry
        (dependency_trail (indirect_point_rows (settings_of by.now.conf) role (point_view_of by.now.view)) (entry_of entry.now).state))
        out.new result }
    ensures most { result ≤ n + 2 }
{
    match entry.point() {
        Some(point) => dependency::put_target(out, n, place, by, role, &DepView::from(&point)),
        None => put_reason(out, n, place, judge_reason::absent_reason(&entry.state)),
    }
}
