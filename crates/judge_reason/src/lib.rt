// How an entry is taken, and what it then gives of reasons: the arms of check_valid and of check_indirect_links of verifier.rs.
#![tactic(auto)]

ghost use Rattle.reasons.specs.Code.{reason_of};
ghost use Rattle.std.specs.Prelude.{◌≡◌, List, ℕ, option_map};
ghost use Rattle.base.specs.Base.{last_of};
ghost use Rattle.point.specs.Code.{point_id_of};
ghost use Rattle.schedule.specs.Code.{settings_of};
ghost use Rattle.rules.specs.Validate.{point_rows, taken, dependency_trail, version_trail, indirect_point_rows};
ghost use Rattle.judge_entries.specs.Code.{dag_point_of};
ghost use Rattle.judge_entries.specs.Entry.{entry_of};
ghost use Rattle.judge_valid.specs.Code.{point_view_of};
ghost use Rattle.judge_reason.specs.Code.{taken_of, entry_in, AbsentReason};

use judge_entries::{DagPoint, Entry};
use judge_valid::{By, DepView, PointView};
use point::{AnchorStageRole, PointId};
use reasons::InvalidReason;

// How a direct entry is taken.
#[derive(Clone, Copy)]
pub enum Taken {
    AsDependency { is_prev_point: bool },
    AsVersion,
    Aside,
}

#[tactic(auto, unfolding(rules::specs::Validate::taken))]
pub fn how_taken(p: &PointView, id: PointId) -> Taken
    ensures { taken_of result ≡ taken (point_view_of p.now) (point_id_of id) }
{
    if !judge_entries::is_own_before(p.id, id) {
        return Taken::AsDependency {
            is_prev_point: false,
        };
    }
    match p.prev_digest {
        Some(digest) => {
            if parts::same(digest, id.digest) {
                return Taken::AsDependency {
                    is_prev_point: true,
                };
            }
            Taken::Aside
        }
        None => Taken::AsVersion,
    }
}

// What a dependency gives of reasons whose point is not there.
#[tactic(auto, unfolding(rules::specs::Validate::dependency_trail, base::specs::Base::last_of))]
pub fn absent_reason(state: &DagPoint) -> Option<InvalidReason>
    ensures { AbsentReason state.now result }
{
    match *state {
        DagPoint::IllFormed { id, reason } => Some(InvalidReason::DepIllFormed {
            dependency: id,
            reason,
        }),
        DagPoint::NotFound(id) => Some(InvalidReason::DepNotFound(id)),
        _ => None,
    }
}

// What an entry taken as a dependency gives of reasons.
pub fn dependency_reason(by: &By, is_prev_point: bool, entry: &Entry) -> Option<InvalidReason>
    ensures { option_map reason_of result
        ≡ last_of (dependency_trail (point_rows (settings_of by.now.conf) by.now.required is_prev_point (point_view_of by.now.view))
        (entry_of entry.now).state) }
{
    match entry.point() {
        Some(point) => { judge_valid::check_dependency(by, is_prev_point, &DepView::from(&point)) }
        None => absent_reason(&entry.state),
    }
}

// What a version of the author's point at the round before gives of reasons, where none is referenced.
#[tactic(auto, unfolding(base::specs::Base::last_of))]
pub fn version_reason(state: &DagPoint, certified: bool, first_valid: bool) -> Option<InvalidReason>
    ensures { (s : List ℕ) → option_map reason_of result
        ≡ last_of (version_trail (entry_in s state.now certified first_valid) (dag_point_of s state.now)) }
{
    match state {
        DagPoint::Valid(info) => {
            first_valid.then_some(InvalidReason::MustHaveReferencedPrevPoint(info.id))
        }
        DagPoint::TransInvalid { info, .. } | DagPoint::Invalid { info, .. } => {
            Some(InvalidReason::MustHaveSkippedRound(info.id))
        }
        DagPoint::IllFormed { id, .. } => Some(InvalidReason::MustHaveSkippedRound(*id)),
        DagPoint::NotFound(id) => {
            certified.then_some(InvalidReason::MustHaveReferencedPrevPoint(*id))
        }
        DagPoint::Dropped => None,
    }
}

// What the target of an indirect link gives of reasons. One function for this and dependency_reason would take the check that they
// differ in as a closure, with a clause for what it gives.
pub fn indirect_reason(by: &By, role: AnchorStageRole, entry: &Entry) -> Option<InvalidReason>
    ensures { option_map reason_of result
        ≡ last_of (dependency_trail (indirect_point_rows (settings_of by.now.conf) role (point_view_of by.now.view))
        (entry_of entry.now).state) }
{
    match entry.point() {
        Some(point) => judge_valid::check_indirect(by, role, &DepView::from(&point)),
        None => absent_reason(&entry.state),
    }
}
