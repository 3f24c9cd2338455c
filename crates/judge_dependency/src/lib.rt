// dependency of verifier.rs: the root cause that a dependency has recorded.
#![tactic(auto)]

ghost use Rattle.std.specs.Prelude.{◌≡◌, List, ℕ, ◌+◌, ◌-◌, leb, option_map};
ghost use Rattle.point.specs.Code.{point_id_of, through_of};
ghost use Rattle.schedule.specs.Code.{settings_of};
ghost use Rattle.reasons.specs.Code.{dependency_of};
ghost use Rattle.rules.specs.Validate.{record_of, is_newer, join, direct_through};
ghost use Rattle.judge_entries.specs.Code.{dag_point_of};

use judge_entries::DagPoint;
use point::{PointId, Through};
use reasons::InvalidDependency;
use schedule::Settings;

// What a direct dependency came through: includes at the round before, else witness.
pub fn direct_through(round: u32, id: PointId) -> Through
    ensures { through_of result ≡ direct_through round (point_id_of id) }
{
    if id.round == parts::rounds_back(round, 1) {
        Through::Includes(id.author)
    } else {
        Through::Witness(id.author)
    }
}

// Whether a root cause lies commit_history_rounds or more back from the round before.
fn is_out_of_window(conf: &Settings, round: u32, root: u32) -> bool
    ensures { result ≡ leb (root + (settings_of conf.now).commit_history_rounds) (round - 1) }
{
    root as u64 + conf.commit_history_rounds as u64 <= parts::rounds_back(round, 1) as u64
}

// What a dependency that was reached through a peer would have recorded.
#[tactic(auto, unfolding(rules::specs::Validate::record_of))]
pub fn record_of(
    conf: &Settings,
    round: u32,
    certified: bool,
    through: Through,
    state: &DagPoint,
) -> Option<InvalidDependency>
    ensures { (s : List ℕ) → option_map dependency_of result
        ≡ record_of (settings_of conf.now) round certified (through_of through) (dag_point_of s state.now) }
{
    match *state {
        DagPoint::TransInvalid {
            root,
            root_reason,
            ..
        } => {
            if certified || is_out_of_window(conf, round, root.round) {
                return None;
            }
            Some(InvalidDependency {
                to: root,
                reason: root_reason,
                through,
            })
        }
        DagPoint::Invalid { info, reason } => {
            if certified {
                return None;
            }
            Some(InvalidDependency {
                to: info.id,
                reason,
                through,
            })
        }
        _ => None,
    }
}

// Whether a root cause replaces the one recorded before it.
#[tactic(auto, unfolding(rules::specs::Validate::is_newer))]
fn is_newer(old: InvalidDependency, new: InvalidDependency) -> bool
    ensures { result ≡ is_newer (dependency_of old) (dependency_of new) }
{
    old.to.round < new.to.round
        || (old.to.round == new.to.round
            && !reasons::has_dag_round(old.reason)
            && reasons::has_dag_round(new.reason))
}

// The root cause that stays of the one recorded and another.
#[tactic(auto, unfolding(rules::specs::Validate::join))]
pub fn join(
    old: Option<InvalidDependency>,
    new: Option<InvalidDependency>,
) -> Option<InvalidDependency>
    ensures { option_map dependency_of result ≡ join (option_map dependency_of old) (option_map dependency_of new) }
{
    match (old, new) {
        (Some(a), Some(b)) => { if is_newer(a, b) { new } else { old } }
        _ => old.or(new),
    }
}
