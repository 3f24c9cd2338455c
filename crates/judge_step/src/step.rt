// The step from one entry to the next: a list and a book feed it.
// By and an entry come together here, in judge_reason and in book_judge: a struct of both would be made for each entry.
ghost use Rattle.std.specs.Prelude.{◌≡◌, Bool, true, option_map};
ghost use Rattle.point.specs.Code.{through_of};
ghost use Rattle.schedule.specs.Code.{settings_of};
ghost use Rattle.reasons.specs.Code.{dependency_of};
ghost use Rattle.rules.specs.Validate.{record_of};
ghost use Rattle.judge_entries.specs.Entry.{entry_of};
ghost use Rattle.judge_valid.specs.Code.{point_view_of};
ghost use Rattle.judge_step.specs.Code.{Quiet, is_nothing, gives_of, gives_all, dependency_as, as_first, DirectGives, IndirectGives};
ghost use Rattle.judge_step.specs.Code.{with_direct, with_indirect, judging_of};

use judge_entries::{DagPoint, Entry};
use judge_reason::Taken;
use judge_valid::{By, Quick};
use point::{AnchorStageRole, Through};
use reasons::{InvalidDependency, InvalidReason};

// What judging has found so far. That a dropped entry has ended the direct list is a fact of its own beside what was found.
#[derive(Clone, Copy)]
pub struct Judging {
    pub direct: Option<InvalidReason>,
    pub indirect: Option<InvalidReason>,
    pub recorded: Option<InvalidDependency>,
    pub ended: bool,
}

// A constant and not a Default: what is a start is said here, and a proof reads it with no call.
pub const START: Judging = Judging {
    direct: None,
    indirect: None,
    recorded: None,
    ended: false,
};

// What an entry gives: its last reason, the root cause that it would have recorded, and that it is dropped with its round. No enum: the
// steps answer for a dropped one that has a reason or a root too. A direct one ends the list without them, and a target's count.
#[derive(Clone, Copy)]
pub struct Gives {
    pub reason: Option<InvalidReason>,
    pub recorded: Option<InvalidDependency>,
    pub dropped: bool,
}

// A constant and not a Default, as START.
pub const NOTHING: Gives = Gives {
    reason: None,
    recorded: None,
    dropped: false,
};

const DROPPED: Gives = Gives {
    dropped: true,
    ..NOTHING
};

// Whether an entry gives nothing, and so changes nothing of what was found.
pub fn gives_nothing(x: &Gives) -> bool
    ensures { result ≡ is_nothing (gives_of x.now) }
{
    matches!(
        x,
        Gives {
            reason: None,
            recorded: None,
            dropped: false,
        }
    )
}

// Whether an entry is valid, and gives nothing for sure.
pub fn is_quiet(quick: &Quick, entry: &Entry) -> bool
    ensures { result ≡ true → Quiet quick.now entry.now }
{
    matches!(entry.state, DagPoint::Valid(_)) && judge_valid::is_quick(quick, entry.rec)
}

// The root cause that an entry would have recorded, which goes through a peer's point.
fn root_of(by: &By, entry: &Entry, through: Through) -> Option<InvalidDependency>
    ensures { option_map dependency_of result
        ≡ record_of (settings_of by.now.conf) by.now.view.id.round entry.now.certified (through_of through) (entry_of entry.now).state }
{
    judge_dependency::record_of(
        &by.conf,
        by.view.id.round,
        entry.certified,
        through,
        &entry.state,
    )
}

// What a direct entry gives that is taken as a dependency.
fn dependency_gives(by: &By, is_prev_point: bool, entry: &Entry) -> Gives
    ensures { gives_of result
        ≡ gives_all (dependency_as (settings_of by.now.conf) by.now.required is_prev_point (point_view_of by.now.view) (entry_of entry.now)) }
{
    let direct = judge_dependency::direct_through(by.view.id.round, entry.state.id());
    Gives {
        reason: judge_reason::dependency_reason(by, is_prev_point, entry),
        recorded: root_of(by, entry, direct),
        ..NOTHING
    }
}

// What a direct entry gives.
pub fn direct_gives(by: &By, entry: &Entry) -> Gives
    ensures { DirectGives (settings_of by.now.conf) by.now.required (point_view_of by.now.view) (entry_of entry.now) (gives_of result) }
{
    if entry.state.is_dropped() {
        return DROPPED;
    }
    match judge_reason::how_taken(&by.view, entry.state.id()) {
        Taken::AsDependency { is_prev_point } => dependency_gives(by, is_prev_point, entry),
        Taken::AsVersion => Gives {
            reason: judge_reason::version_reason(&entry.state, entry.certified, entry.first_valid),
            ..NOTHING
        },
        Taken::Aside => NOTHING,
    }
}

// What the entry of an indirect link's target gives, which goes through a peer's point. That it is dropped doesn't count here.
pub fn indirect_gives(by: &By, role: AnchorStageRole, through: Through, entry: &Entry) -> Gives
    ensures { (first : Bool) →
        IndirectGives (settings_of by.now.conf) (point_view_of by.now.view) role (through_of through)
        (as_first first (entry_of entry.now)) (gives_of result) }
{
    Gives {
        reason: judge_reason::indirect_reason(by, role, entry),
        recorded: root_of(by, entry, through),
        ..NOTHING
    }
}

// What was found, and then what a direct entry gives: a dropped one ends the list, and sets its reason only if none is set. A later
// reason replaces an earlier one.
#[tactic(auto, using(crate::proofs::Laws::later_told, crate::proofs::Laws::dropped_told))]
pub fn with_direct(so_far: Judging, x: &Gives) -> Judging
    ensures { judging_of result ≡ with_direct (judging_of so_far) (gives_of x.now) }
{
    if so_far.ended {
        return so_far;
    }
    if x.dropped {
        return Judging {
            direct: so_far
                .direct
                .or(Some(InvalidReason::DependencyRoundDropped)),
            ended: true,
            ..so_far
        };
    }
    Judging {
        direct: x.reason.or(so_far.direct),
        recorded: judge_dependency::join(so_far.recorded, x.recorded),
        ..so_far
    }
}

// What was found, and then what the entry of an indirect link's target gives. That it is dropped changes nothing: those after it are judged
// too.
#[tactic(auto, using(crate::proofs::Laws::later_told))]
pub fn with_indirect(so_far: Judging, x: &Gives) -> Judging
    ensures { judging_of result ≡ with_indirect (judging_of so_far) (gives_of x.now) }
{
    Judging {
        indirect: x.reason.or(so_far.indirect),
        recorded: judge_dependency::join(so_far.recorded, x.recorded),
        ..so_far
    }
}
