// The rules that a dependency q of a judged point p is checked against: a rule takes both views as its row in the definitions does. Of
// the reasons that they give the last stays, so a chain of them is asked from its last rule to its first.
ghost use Rattle.reasons.specs.Code.{reason_of};
ghost use Rattle.std.specs.Prelude.{◌≡◌, List, [], ◌∷◌, Some, option_map};
ghost use Rattle.base.specs.Base.{concat, last_of};
ghost use Rattle.point.specs.Point.{sticky_anchors};
ghost use Rattle.point.specs.Code.{sticky_of};
ghost use Rattle.point.specs.declared.data.AnchorStageRole.TheVariants.{Proof, Trigger};
ghost use Rattle.schedule.specs.Code.{settings_of};
ghost use Rattle.rules.specs.Validate.{is_open, not_trigger, ends_too_soon, proof_row, trigger_proof_row, time_row, newer_row};
ghost use Rattle.rules.specs.Validate.{seq_no, follows, sticky_row, reached_row, target_row, anchor_time_row, carried_row};
ghost use Rattle.rules.specs.Validate.{source_row, anchor_rows, point_rows, indirect_row, indirect_point_rows};
ghost use Rattle.judge_valid.specs.Code.{point_view_of, dep_view_of, path_row, is_source};

use crate::quick::is_late;
use crate::view::{By, DepView, PointView};
use point::{AnchorStageRole, PointRole, StickyAnchors};
use reasons::InvalidReason;
use schedule::Settings;

// Whether a role is that of a proof which another has to follow in its sequence.
fn is_open(role: PointRole) -> bool
    ensures { result ≡ is_open (sticky_anchors role) }
{
    role.sticky_anchors().is_some_and(|sticky| !sticky.is_last)
}

// Whether a point after a proof is no trigger.
fn is_not_trigger(required: bool, own: PointRole, proven: PointRole) -> bool
    ensures { result ≡ not_trigger required own proven }
{
    !required && proven.is_anchor_proof() && !own.is_anchor_trigger()
}

// Whether a point after a proof ends the sequence before its last.
fn ends_too_soon(required: bool, own: PointRole, proven: PointRole) -> bool
    ensures { result ≡ ends_too_soon required own proven }
{
    !required && proven.is_anchor_proof() && !own.is_anchor_proof() && is_open(proven)
}

// is_proof_ok of verifier.rs, of the previous point.
#[tactic(auto, unfolding(rules::specs::Validate::proof_row, base::specs::Base::last_of), using(crate::proofs::Laws::told))]
pub fn check_proof(required: bool, p: &PointView, q: &DepView) -> Option<InvalidReason>
    ensures { option_map reason_of result ≡ last_of (proof_row required (point_view_of p.now) (dep_view_of q.now)) }
{
    if is_not_trigger(required, p.role, q.role) {
        return Some(InvalidReason::NotTrigger(q.id));
    }
    if ends_too_soon(required, p.role, q.role) {
        return Some(InvalidReason::TerminalTriggerBeforeLastProof(q.id));
    }
    if p.time <= q.time {
        return Some(InvalidReason::TimeNotGreaterThanInPrevPoint(q.id));
    }
    (p.role.is_anchor_proof() && p.anchor_time != q.time).then_some(
        InvalidReason::AnchorProofDoesntInheritAnchorTime(q.id),
    )
}

#[tactic(auto, unfolding(rules::specs::Validate::trigger_proof_row, base::specs::Base::last_of))]
fn check_trigger_proof(p: &PointView, q: &DepView, is_target: bool) -> Option<InvalidReason>
    ensures { option_map reason_of result ≡ last_of (trigger_proof_row (point_view_of p.now) (dep_view_of q.now) is_target) }
{
    let target = p.proof.target;
    let bound = q.proof_top;
    if bound.round < target.round || point::is_same_id(target, bound) {
        return None;
    }
    Some(InvalidReason::TriggerProofMismatch {
        dependency: q.id,
        is_target,
    })
}

// The dependency's time may exceed the point's by the clock skew only.
#[tactic(auto, unfolding(rules::specs::Validate::time_row), using(crate::proofs::Laws::told))]
pub fn check_time(conf: &Settings, p: &PointView, q: &DepView) -> Option<InvalidReason>
    ensures { option_map reason_of result ≡ last_of (time_row (settings_of conf.now) (point_view_of p.now) (dep_view_of q.now)) }
{
    is_late(p.time, conf.clock_skew_millis as u64, q.time).then_some(
        InvalidReason::DependencyTimeTooFarInFuture(q.id),
    )
}

#[tactic(auto, unfolding(rules::specs::Validate::newer_row), using(crate::proofs::Laws::told))]
pub fn check_newer(role: AnchorStageRole, p: &PointView, q: &DepView) -> Option<InvalidReason>
    ensures { option_map reason_of result ≡ last_of (newer_row role (point_view_of p.now) (dep_view_of q.now)) }
{
    (p.links(role).target.round < q.top(role).round).then_some(
        InvalidReason::NewerAnchorInDependency {
            role,
            dependency: q.id,
        },
    )
}

fn prev_seq_no(role: PointRole) -> Option<u8>
    ensures { result ≡ seq_no (sticky_anchors role) }
{
    role.sticky_anchors().map(|sticky| sticky.seq_no)
}

fn is_next(prev: Option<u8>, seq_no: u8) -> bool
    ensures { result ≡ follows prev seq_no }
{
    prev.is_some_and(|n| n as u16 + 1 == seq_no as u16)
}

// Of a proof's number, where its link's target is at hand: that the sequence goes on.
#[tactic(auto, unfolding(rules::specs::Validate::sticky_row, base::specs::Base::last_of))]
fn check_seq_no(conf: &Settings, sticky: StickyAnchors, q: &DepView) -> Option<InvalidReason>
    ensures { option_map reason_of result ≡ last_of (sticky_row (settings_of conf.now) (dep_view_of q.now) (Some (sticky_of sticky))) }
{
    let seq_no = sticky.seq_no;
    let prev_seq_no = prev_seq_no(q.role);
    if seq_no == 0 || (seq_no <= conf.sticky_anchors && is_next(prev_seq_no, seq_no)) {
        return None;
    }
    Some(InvalidReason::BadStickySequence {
        dependency: q.id,
        prev_seq_no,
        seq_no,
    })
}

#[tactic(auto, unfolding(rules::specs::Validate::sticky_row, base::specs::Base::last_of))]
fn check_sticky(conf: &Settings, role: PointRole, q: &DepView) -> Option<InvalidReason>
    ensures { option_map reason_of result ≡ last_of (sticky_row (settings_of conf.now) (dep_view_of q.now) (sticky_anchors role)) }
{
    check_seq_no(conf, role.sticky_anchors()?, q)
}

// Of a link's target that has the role.
#[tactic(auto, unfolding(rules::specs::Validate::reached_row))]
fn check_reached(
    conf: &Settings,
    role: AnchorStageRole,
    p: &PointView,
    q: &DepView,
) -> Option<InvalidReason>
    ensures { option_map reason_of result ≡ last_of (reached_row (settings_of conf.now) role (point_view_of p.now) (dep_view_of q.now)) }
{
    match role {
        AnchorStageRole::Proof => check_sticky(conf, p.role, q),
        AnchorStageRole::Trigger => check_trigger_proof(p, q, true),
    }
}

#[tactic(auto, unfolding(rules::specs::Validate::target_row, base::specs::Base::last_of))]
pub fn check_target(
    conf: &Settings,
    role: AnchorStageRole,
    p: &PointView,
    q: &DepView,
) -> Option<InvalidReason>
    ensures { option_map reason_of result ≡ last_of (target_row (settings_of conf.now) role (point_view_of p.now) (dep_view_of q.now)) }
{
    if !point::is_same_id(q.id, p.links(role).target) {
        return None;
    }
    if !q.role.is_anchor_stage(role) {
        return Some(InvalidReason::AnchorLink {
            role,
            dependency: q.id,
        });
    }
    check_reached(conf, role, p, q)
}

#[tactic(auto, unfolding(rules::specs::Validate::anchor_time_row), using(crate::proofs::Laws::told))]
fn check_anchor_time(p: &PointView, q: &DepView) -> Option<InvalidReason>
    ensures { option_map reason_of result ≡ last_of (anchor_time_row (point_view_of p.now) (dep_view_of q.now)) }
{
    (!p.role.is_anchor_proof() && q.anchor_time != p.anchor_time).then_some(
        InvalidReason::AnchorTimeNotInheritedFromProof(q.id),
    )
}

// Of a link's source: what the link carries on.
#[tactic(auto, unfolding(rules::specs::Validate::carried_row, base::specs::Base::last_of))]
pub fn check_carried(role: AnchorStageRole, p: &PointView, q: &DepView) -> Option<InvalidReason>
    ensures { option_map reason_of result ≡ last_of (carried_row role (point_view_of p.now) (dep_view_of q.now)) }
{
    match role {
        AnchorStageRole::Proof => check_anchor_time(p, q),
        AnchorStageRole::Trigger => {
            if point::is_same_id(q.id, p.trigger.target) {
                return None;
            }
            check_trigger_proof(p, q, false)
        }
    }
}

// Of a link's source: that its top is the link's target.
#[tactic(auto, using(crate::proofs::Laws::told))]
pub fn check_path(role: AnchorStageRole, p: &PointView, q: &DepView) -> Option<InvalidReason>
    ensures { option_map reason_of result ≡ last_of (path_row role (point_view_of p.now) (dep_view_of q.now)) }
{
    (!point::is_same_id(q.top(role), p.links(role).target)).then_some(
        InvalidReason::AnchorLinkBadPath {
            role,
            dependency: q.id,
        },
    )
}

// Whether a dependency is a link's source.
pub fn is_source(role: AnchorStageRole, p: &PointView, q: &DepView) -> bool
    ensures { result ≡ is_source role (point_view_of p.now) (dep_view_of q.now) }
{
    point::is_same_id(q.id, p.links(role).source)
}

#[tactic(auto, unfolding(rules::specs::Validate::source_row), using(crate::proofs::Laws::source_told))]
fn check_source(role: AnchorStageRole, p: &PointView, q: &DepView) -> Option<InvalidReason>
    ensures { option_map reason_of result ≡ last_of (source_row role (point_view_of p.now) (dep_view_of q.now)) }
{
    if !is_source(role, p, q) {
        return None;
    }
    check_carried(role, p, q).or(check_path(role, p, q))
}

// The rules on the sources of both links.
#[tactic(auto, using(crate::proofs::Laws::rows_told))]
fn check_sources(p: &PointView, q: &DepView) -> Option<InvalidReason>
    ensures { option_map reason_of result
        ≡ last_of (concat (source_row Proof (point_view_of p.now) (dep_view_of q.now)
        ∷ source_row Trigger (point_view_of p.now) (dep_view_of q.now) ∷ [])) }
{
    check_source(AnchorStageRole::Trigger, p, q).or_else(|| check_source(
        AnchorStageRole::Proof,
        p,
        q,
    ))
}

// The rules on both links of a point. As one chain of `or_else` it was tried, and proves, but a dependency that all rules are asked of then
// takes 7 % more instructions: 1,015,531 in place of 947,382 over the cases of crate replay.
#[tactic(auto, unfolding(rules::specs::Validate::anchor_rows), using(crate::proofs::Laws::rows_told))]
fn check_links(conf: &Settings, p: &PointView, q: &DepView) -> Option<InvalidReason>
    ensures { option_map reason_of result ≡ last_of (concat (anchor_rows (settings_of conf.now) (point_view_of p.now) (dep_view_of q.now))) }
{
    if let Some(reason) = check_sources(p, q) {
        return Some(reason);
    }
    check_target(conf, AnchorStageRole::Trigger, p, q).or_else(|| check_target(
        conf,
        AnchorStageRole::Proof,
        p,
        q,
    ))
}

// What a dependency, the previous point or another, gives of reasons.
pub fn check_dependency(by: &By, is_prev_point: bool, q: &DepView) -> Option<InvalidReason>
    ensures { option_map reason_of result
        ≡ last_of (concat (point_rows (settings_of by.now.conf) by.now.required is_prev_point (point_view_of by.now.view) (dep_view_of q.now))) }
{
    let p = &by.view;
    let later = check_links(&by.conf, p, q)
        .or_else(|| check_newer(AnchorStageRole::Trigger, p, q))
        .or_else(|| check_newer(AnchorStageRole::Proof, p, q))
        .or_else(|| check_time(&by.conf, p, q));
    if is_prev_point {
        return later.or_else(|| check_proof(by.required, p, q));
    }
    later
}

// Of an indirect link's target that has the role.
pub fn check_inherited(role: AnchorStageRole, p: &PointView, q: &DepView) -> Option<InvalidReason>
    ensures { option_map reason_of result ≡ last_of (indirect_row role (point_view_of p.now) (dep_view_of q.now)) }
{
    match role {
        AnchorStageRole::Proof => check_anchor_time(p, q),
        AnchorStageRole::Trigger => check_trigger_proof(p, q, true),
    }
}

// What the target of an indirect link gives of reasons.
#[tactic(auto, unfolding(rules::specs::Validate::indirect_point_rows), using(crate::proofs::Laws::rows_told))]
pub fn check_indirect(by: &By, role: AnchorStageRole, q: &DepView) -> Option<InvalidReason>
    ensures { option_map reason_of result
        ≡ last_of (concat (indirect_point_rows (settings_of by.now.conf) role (point_view_of by.now.view) (dep_view_of q.now))) }
{
    if !q.role.is_anchor_stage(role) {
        return Some(InvalidReason::AnchorLinkRole {
            role,
            dependency: q.id,
        });
    }
    check_inherited(role, &by.view, q).or_else(|| check_time(&by.conf, &by.view, q))
}
