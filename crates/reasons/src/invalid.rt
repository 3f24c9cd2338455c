// What judging finds: InvalidReason and InvalidDependency.
ghost use Rattle.std.specs.Prelude.{◌≡◌};
ghost use Rattle.reasons.specs.Invalid.{invalid_number, dag_round, has_dag_round};
ghost use Rattle.reasons.specs.Code.{reason_of};

use point::{AnchorStageRole, PointId, PointMap, Through};

// The Rust's AfterLoadFromDb, numbers 1 and 20, is never given by judging: it has no case here. A dependency's own reason
// is its number.
#[derive(Clone, Copy)]
pub enum InvalidReason {
    NoRoundInDag(PointMap),
    DependencyRoundDropped,
    NotTrigger(PointId),
    TerminalTriggerBeforeLastProof(PointId),
    TimeNotGreaterThanInPrevPoint(PointId),
    AnchorProofDoesntInheritAnchorTime(PointId),
    AnchorTimeNotInheritedFromProof(PointId),
    MustHaveReferencedPrevPoint(PointId),
    MustHaveSkippedRound(PointId),
    DependencyTimeTooFarInFuture(PointId),
    NewerAnchorInDependency {
        role: AnchorStageRole,
        dependency: PointId,
    },
    AnchorLink {
        role: AnchorStageRole,
        dependency: PointId,
    },
    AnchorLinkRole {
        role: AnchorStageRole,
        dependency: PointId,
    },
    AnchorLinkBadPath {
        role: AnchorStageRole,
        dependency: PointId,
    },
    BadStickySequence {
        dependency: PointId,
        prev_seq_no: Option<u8>,
        seq_no: u8,
    },
    TriggerProofMismatch {
        dependency: PointId,
        is_target: bool,
    },
    DepIllFormed {
        dependency: PointId,
        reason: u8,
    },
    DepNotFound(PointId),
}

// A root cause, the number of its reason, and what it came through.
#[derive(Clone, Copy)]
pub struct InvalidDependency {
    pub to: PointId,
    pub reason: u8,
    pub through: Through,
}

impl InvalidReason {
    pub fn number(self) -> u8
        ensures { result ≡ invalid_number (reason_of self) }
    {
        match self {
            InvalidReason::NoRoundInDag(_) => 2,
            InvalidReason::DependencyRoundDropped => 3,
            InvalidReason::NotTrigger(_) => 4,
            InvalidReason::TerminalTriggerBeforeLastProof(_) => 5,
            InvalidReason::TimeNotGreaterThanInPrevPoint(_) => 6,
            InvalidReason::AnchorProofDoesntInheritAnchorTime(_) => 7,
            InvalidReason::AnchorTimeNotInheritedFromProof(_) => 8,
            InvalidReason::MustHaveReferencedPrevPoint(_) => 9,
            InvalidReason::MustHaveSkippedRound(_) => 10,
            InvalidReason::DependencyTimeTooFarInFuture(_) => 11,
            InvalidReason::NewerAnchorInDependency { .. } => 12,
            InvalidReason::AnchorLink { .. } => 13,
            InvalidReason::AnchorLinkRole { .. } => 14,
            InvalidReason::AnchorLinkBadPath { .. } => 15,
            InvalidReason::BadStickySequence { .. } => 16,
            InvalidReason::TriggerProofMismatch { .. } => 17,
            InvalidReason::DepIllFormed { .. } => 18,
            InvalidReason::DepNotFound(_) => 19,
        }
    }
}

// Whether the reason of a number has a DAG round, and whether there is such a reason. It matches on numbers, since lists and books
// carry the reason of a dependency by its number alone.
#[tactic(auto, unfolding(crate::specs::Invalid::dag_round))]
pub fn dag_round(number: u8) -> Option<bool>
    ensures { result ≡ dag_round number }
{
    match number {
        1 => Some(true),
        2..=3 => Some(false),
        4..=19 => Some(true),
        20 => Some(false),
        _ => None,
    }
}

pub fn has_dag_round(number: u8) -> bool
    ensures { result ≡ has_dag_round number }
{
    dag_round(number) == Some(true)
}
