// Verifier::check_ill_formed: what is left to test of a verified point's form once the schedule's spans and the leader
// are known.
#![tactic(auto)]

ghost use Rattle.std.specs.Prelude.{◌≡◌, List, ℕ};
ghost use Rattle.point.specs.Said.{said};
ghost use Rattle.schedule.specs.Code.{schedule_of};
ghost use Rattle.rules.specs.CheckIllFormed.{wave_checked};

use point::{Point, PointRole};
use reasons::{IllFormedReason, WaveChecked};
use schedule::Schedule;

// Either the role or the wave link is tested, never both.
#[tactic(auto, unfolding(rules::specs::CheckIllFormed::wave_checked))]
pub fn check_ill_formed(schedule: Schedule, point: &Point, is_leader: bool) -> WaveChecked
    ensures { (s : List ℕ) → result ≡ wave_checked (schedule_of s schedule) is_leader (said point.now) }
{
    let info = &point.info;
    let Some(required) = schedule.require_regular_points(info.id.round) else {
        return WaveChecked::Horizon;
    };
    if required {
        if info.role == PointRole::Regular {
            return WaveChecked::Sound(true);
        }
        return WaveChecked::IllFormed(IllFormedReason::NotRegular);
    }
    let has_prev_point = point.prev_digest().is_some();
    if info.is_wave_link_ok(is_leader, has_prev_point) {
        return WaveChecked::Sound(false);
    }
    WaveChecked::IllFormed(IllFormedReason::BadWaveLink(is_leader))
}
