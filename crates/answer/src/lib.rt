// Document 01's number and values of a verdict, and their 114 bytes.
#![tactic(auto)]

ghost use Rattle.std.specs.Prelude.{◌≡◌, ◌≤◌, length};
ghost use Rattle.parts.specs.Bytes.{put_at};
ghost use Rattle.point.specs.Code.{point_id_of};
ghost use Rattle.reasons.specs.Answer.{map_number, role_number};
ghost use Rattle.reasons.specs.Code.{reason_of, dependency_of, verdict_of};
ghost use Rattle.reasons.specs.IllFormed.{issue_answer, ill_formed_answer, error_answer};
ghost use Rattle.reasons.specs.Invalid.{invalid_answer};
ghost use Rattle.reasons.specs.Verdict.{TransInvalid};
ghost use Rattle.rules.specs.Answer.{verified_answer, verdict_answer, head_bytes, number_bytes, root_bytes, answer_bytes};
ghost use Rattle.answer.specs.Code.{values, values_in, kind_number, named, plain, values_of, answer_of};

use parts::Id;
use point::{AnchorStageRole, PointId, PointMap};
use reasons::{
    IllFormedReason, InvalidDependency, InvalidReason, StructureIssue, Verdict, VerifyError,
};

// Document 01's numbers of what an answer is.
#[derive(Clone, Copy)]
enum Kind {
    Valid = 0,
    TransInvalid = 1,
    Invalid = 2,
    IllFormed = 3,
    Fail = 4,
    Verified = 5,
}

// What a reason carries beside its number. Map and role are bytes of the answer, by document 01's numbers of them, as an answer's kind
// is: nothing else is made of them.
#[derive(Clone, Copy)]
pub struct Values {
    pub map: u8,
    pub role: u8,
    pub first: u32,
    pub second: u32,
    pub unknown: u8,
}

#[derive(Clone, Copy)]
pub struct Answer {
    pub kind: u8,
    pub reason: u8,
    pub id: PointId,
    pub values: Values,
    pub root_reason: u8,
    pub peer: Id,
}

// Document 01's number for no map, and for no role.
const NONE: u8 = 255;

// What most reasons carry.
const NOTHING: Values = Values {
    map: NONE,
    role: NONE,
    first: 0,
    second: 0,
    unknown: 0,
};

fn of_map(map: PointMap) -> Values
    ensures { values_of result ≡ values (map_number map) 255 0 0 0 }
{
    Values {
        map: map as u8,
        ..NOTHING
    }
}

fn of_role(role: AnchorStageRole) -> Values
    ensures { values_of result ≡ values 255 (role_number role) 0 0 0 }
{
    Values {
        role: role as u8,
        ..NOTHING
    }
}

fn of_first(first: u32) -> Values
    ensures { values_of result ≡ values 255 255 first 0 0 }
{
    Values { first, ..NOTHING }
}

impl From<StructureIssue> for Values {
    ghost from_gives = { λ issue values. values_of values ≡ values_in (issue_answer issue) };

    fn from(issue: StructureIssue) -> Values {
        let (first, second, map, role) = match issue {
            StructureIssue::ExpectedGenesis(b) => (1, b as u32, NONE, NONE),
            StructureIssue::BadGenesisPrevPoint => (2, 0, NONE, NONE),
            StructureIssue::AuthorInMap(map) => (3, 0, map as u8, NONE),
            StructureIssue::TriggerBadProofLink => (4, 0, NONE, NONE),
            StructureIssue::Link { role, map } => (5, 0, map as u8, role as u8),
            StructureIssue::AnchorTime => (6, 0, NONE, NONE),
            StructureIssue::NoPrevPoint => (7, 0, NONE, NONE),
        };
        Values {
            map,
            role,
            first,
            second,
            ..NOTHING
        }
    }
}

impl From<IllFormedReason> for Values {
    ghost from_gives = { λ reason values. values_of values ≡ values_in (ill_formed_answer reason) };

    fn from(reason: IllFormedReason) -> Values {
        match reason {
            IllFormedReason::BeforeGenesis
            | IllFormedReason::UnknownAuthor
            | IllFormedReason::FalseGenesis
            | IllFormedReason::BadLastStickyFlag
            | IllFormedReason::LinksAcrossGenesis
            | IllFormedReason::NotRegular => NOTHING,
            IllFormedReason::TooLargePayload(first) => of_first(first),
            IllFormedReason::Structure(issue) => issue.into(),
            IllFormedReason::TooManyStickyAnchors(n) => of_first(n as u32),
            IllFormedReason::MustBeEmpty(map) => of_map(map),
            IllFormedReason::UnknownPeers { unknown, map } => Values {
                unknown,
                ..of_map(map)
            },
            IllFormedReason::UnknownPeerInAnchorLink(role) => of_role(role),
            IllFormedReason::LackOfPeers { len, total, map } => Values {
                first: len as u32,
                second: total.0 as u32,
                ..of_map(map)
            },
            IllFormedReason::BadWaveLink(b) => of_first(b as u32),
        }
    }
}

// An answer that names a point, and no root cause.
#[tactic(auto, using(parts::proofs::Laws::number_zero))]
fn named(kind: Kind, reason: u8, id: PointId, values: Values) -> Answer
    ensures { answer_of result ≡ named (kind_number kind) reason (point_id_of id) (values_of values) }
{
    Answer {
        kind: kind as u8,
        reason,
        id,
        values,
        root_reason: 0,
        peer: parts::NO_ID,
    }
}

// An answer that names no point and no root cause.
#[tactic(auto, using(parts::proofs::Laws::number_zero))]
fn plain(kind: Kind, reason: u8, values: Values) -> Answer
    ensures { answer_of result ≡ plain (kind_number kind) reason (values_of values) }
{
    named(kind, reason, point::NO_POINT, values)
}

impl From<VerifyError> for Answer {
    ghost from_gives = { λ error answer. answer_of answer ≡ error_answer error };

    #[tactic(auto, using(crate::proofs::Laws::ill_formed_parts))]
    fn from(error: VerifyError) -> Answer {
        match error {
            VerifyError::Fail(u) => {
                let values = Values {
                    first: u.len as u32,
                    second: u.round,
                    ..of_map(u.map)
                };
                plain(Kind::Fail, 0, values)
            }
            VerifyError::IllFormed(reason) => plain(
                Kind::IllFormed,
                reason.number(),
                reason.into(),
            ),
        }
    }
}

impl From<Result<(), VerifyError>> for Answer {
    ghost from_gives = { λ verified answer. answer_of answer ≡ verified_answer verified };

    fn from(verified: Result<(), VerifyError>) -> Answer {
        match verified {
            Ok(()) => plain(Kind::Verified, 0, NOTHING),
            Err(error) => error.into(),
        }
    }
}

impl From<InvalidReason> for Values {
    ghost from_gives = { λ reason values. values_of values ≡ values_in (invalid_answer (reason_of reason)) };

    fn from(reason: InvalidReason) -> Values {
        match reason {
            InvalidReason::NoRoundInDag(map) => of_map(map),
            InvalidReason::NewerAnchorInDependency { role, .. }
            | InvalidReason::AnchorLink { role, .. }
            | InvalidReason::AnchorLinkRole { role, .. }
            | InvalidReason::AnchorLinkBadPath { role, .. } => of_role(role),
            InvalidReason::BadStickySequence {
                prev_seq_no,
                seq_no,
                ..
            } => Values {
                first: seq_no as u32,
                second: prev_seq_no.map_or(u32::MAX, u32::from),
                ..NOTHING
            },
            InvalidReason::TriggerProofMismatch { is_target, .. } => of_first(is_target as u32),
            InvalidReason::DepIllFormed { reason: n, .. } => of_first(n as u32),
            InvalidReason::DependencyRoundDropped
            | InvalidReason::NotTrigger(_)
            | InvalidReason::TerminalTriggerBeforeLastProof(_)
            | InvalidReason::TimeNotGreaterThanInPrevPoint(_)
            | InvalidReason::AnchorProofDoesntInheritAnchorTime(_)
            | InvalidReason::AnchorTimeNotInheritedFromProof(_)
            | InvalidReason::MustHaveReferencedPrevPoint(_)
            | InvalidReason::MustHaveSkippedRound(_)
            | InvalidReason::DependencyTimeTooFarInFuture(_)
            | InvalidReason::DepNotFound(_) => NOTHING,
        }
    }
}

// The point that a reason names, or none.
#[tactic(auto, using(parts::proofs::Laws::number_zero))]
pub fn id_of(reason: InvalidReason) -> PointId
    ensures { point_id_of result ≡ (invalid_answer (reason_of reason)).id }
{
    match reason {
        InvalidReason::NoRoundInDag(_) | InvalidReason::DependencyRoundDropped => point::NO_POINT,
        InvalidReason::NotTrigger(id)
        | InvalidReason::TerminalTriggerBeforeLastProof(id)
        | InvalidReason::TimeNotGreaterThanInPrevPoint(id)
        | InvalidReason::AnchorProofDoesntInheritAnchorTime(id)
        | InvalidReason::AnchorTimeNotInheritedFromProof(id)
        | InvalidReason::MustHaveReferencedPrevPoint(id)
        | InvalidReason::MustHaveSkippedRound(id)
        | InvalidReason::DependencyTimeTooFarInFuture(id)
        | InvalidReason::DepNotFound(id) => id,
        InvalidReason::NewerAnchorInDependency { dependency, .. }
        | InvalidReason::AnchorLink { dependency, .. }
        | InvalidReason::AnchorLinkRole { dependency, .. }
        | InvalidReason::AnchorLinkBadPath { dependency, .. }
        | InvalidReason::BadStickySequence { dependency, .. }
        | InvalidReason::TriggerProofMismatch { dependency, .. }
        | InvalidReason::DepIllFormed { dependency, .. } => dependency,
    }
}

// A root cause, with what it came through.
impl From<InvalidDependency> for Answer {
    ghost from_gives = { λ d answer. answer_of answer ≡ verdict_answer (TransInvalid (dependency_of d)) };

    fn from(d: InvalidDependency) -> Answer {
        let through = d.through;
        Answer {
            kind: Kind::TransInvalid as u8,
            reason: 0,
            id: d.to,
            values: of_map(PointMap::from(through)),
            root_reason: d.reason,
            peer: through.peer(),
        }
    }
}

impl From<Verdict> for Answer {
    ghost from_gives = { λ verdict answer. answer_of answer ≡ verdict_answer (verdict_of verdict) };

    #[tactic(auto, using(crate::proofs::Laws::invalid_parts))]
    fn from(verdict: Verdict) -> Answer {
        match verdict {
            Verdict::Fail(u) => VerifyError::Fail(u).into(),
            Verdict::IllFormed(reason) => VerifyError::IllFormed(reason).into(),
            Verdict::Invalid(reason) => named(
                Kind::Invalid,
                reason.number(),
                id_of(reason),
                reason.into(),
            ),
            Verdict::TransInvalid(d) => d.into(),
            Verdict::Valid => plain(Kind::Valid, 0, NOTHING),
        }
    }
}

// Each writes into put_answer's slice, of 114 bytes or more: with an array of 114, cut out of it once, the proof of put_answer didn't
// close, since what is written has to be joined with the rest of the slice.
fn put_head(out: &mut [u8], a: Answer)
    requires { 114 ≤ length out.old }
    ensures { out.new ≡ put_at out.old 0 (head_bytes (answer_of a)) }
{
    out[0] = a.kind;
    out[1] = a.reason;
    point::put_point_id(out, 2, a.id);
}

fn put_numbers(out: &mut [u8], a: Answer)
    requires { 114 ≤ length out.old }
    ensures { out.new ≡ put_at out.old 70 (number_bytes (answer_of a)) }
{
    out[70] = a.values.map;
    out[71] = a.values.role;
    write::put_u32(out, 72, a.values.first);
    write::put_u32(out, 76, a.values.second);
}

fn put_root(out: &mut [u8], a: Answer)
    requires { 114 ≤ length out.old }
    ensures { out.new ≡ put_at out.old 80 (root_bytes (answer_of a)) }
{
    out[80] = a.root_reason;
    write::put_id(out, 81, a.peer);
    out[113] = a.values.unknown;
}

// Writes the 114 bytes.
pub fn put_answer(out: &mut [u8], a: Answer)
    requires { 114 ≤ length out.old }
    ensures { out.new ≡ put_at out.old 0 (answer_bytes (answer_of a)) }
{
    put_head(out, a);
    put_numbers(out, a);
    put_root(out, a);
}
