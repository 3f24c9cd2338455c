// The final reason of an entry.
ghost use Rattle.std.specs.Prelude.{◌≡◌, option_map};
ghost use Rattle.point.specs.Point.{PointInfo};
ghost use Rattle.schedule.specs.Code.{settings_of};
ghost use Rattle.reasons.specs.Code.{reason_of};
ghost use Rattle.rules.specs.DagPoint.{point_view};
ghost use Rattle.rules.specs.Force.{list_of, direct_final};
ghost use Rattle.judge_entries.specs.Entry.{entry_of, listed_of};
ghost use Rattle.judge_valid.specs.Code.{point_view_of};
ghost use Rattle.force_rows.specs.Code.{final_in};

use judge_entries::{Entry, Listed};
use judge_valid::By;
use reasons::InvalidReason;

// Of a direct entry: "With a dropped one, `DependencyRoundDropped` joins them".
fn direct_reason(by: &By, entry: &Entry) -> Option<InvalidReason>
    ensures { list_of (option_map reason_of result)
        ≡ direct_final (settings_of by.now.conf) by.now.required (point_view_of by.now.view) (entry_of entry.now) }
{
    let gives = judge_step::direct_gives(by, entry);
    if gives.dropped {
        Some(InvalidReason::DependencyRoundDropped)
    } else {
        gives.reason
    }
}

// Of an entry of either kind.
pub(crate) fn final_reason(by: &By, x: &Listed) -> Option<InvalidReason>
    ensures { (p : PointInfo) → point_view_of by.now.view ≡ point_view p →
        list_of (option_map reason_of result) ≡ final_in (settings_of by.now.conf) by.now.required p (listed_of x.now) }
{
    match x.aim {
        Some(role) => judge_reason::indirect_reason(by, role, &x.entry),
        None => direct_reason(by, &x.entry),
    }
}
