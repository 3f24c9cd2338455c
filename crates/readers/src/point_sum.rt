// The sum of what a point record says: its fields, and what roles and links answer of them.
use crate::mix::{mix, mix_flag, mix_id, mix_option, mix_point_id, sum_of_map, sum_of_set};
use parts::Id;
use point::{
    AnchorLink, AnchorStageRole, AnchorView, Point, PointId, PointInfo, PointRole, StickyAnchors,
    Through,
};

fn mix_through(sum: u64, through: Through) -> u64 {
    match through {
        Through::Includes(peer) => mix_id(mix(sum, 0), peer),
        Through::Witness(peer) => mix_id(mix(sum, 1), peer),
    }
}

fn mix_link(sum: u64, link: AnchorLink) -> u64 {
    match link {
        AnchorLink::Direct(through) => mix_through(mix(sum, 0), through),
        AnchorLink::Indirect(indirect) => {
            mix_point_id(mix_through(mix(sum, 1), indirect.through), indirect.to)
        }
    }
}

fn mix_role(sum: u64, role: PointRole) -> u64 {
    match role {
        PointRole::Regular => mix(sum, 0),
        PointRole::AnchorProof { seq_no, is_last } => {
            mix_flag(mix(mix(sum, 1), u64::from(seq_no)), is_last)
        }
        PointRole::AnchorTrigger => mix(sum, 2),
        PointRole::Genesis => mix(sum, 3),
    }
}

fn mix_sticky(sum: u64, sticky: StickyAnchors) -> u64 {
    mix_flag(mix(sum, u64::from(sticky.seq_no)), sticky.is_last)
}

fn mix_view(sum: u64, view: AnchorView) -> u64 {
    let top = mix_point_id(sum, view.top);
    let target = mix_point_id(top, view.target);
    mix_point_id(target, view.source)
}

fn mix_fields(point: &Point) -> u64 {
    let info = &point.info;
    let length = mix(mix_point_id(0, info.id), u64::from(info.payload_len));
    let bytes = mix(length, u64::from(info.payload_bytes));
    let includes = mix(bytes, sum_of_map(point.includes()));
    let witness = mix(includes, sum_of_map(point.witness()));
    let evidence = mix(witness, sum_of_set(point.evidence()));
    let links = mix_link(mix_link(evidence, info.anchor_proof), info.anchor_trigger);
    mix(mix(mix_role(links, info.role), info.time), info.anchor_time)
}

fn mix_role_answers(sum: u64, role: PointRole) -> u64 {
    let proof = mix_flag(sum, role.is_anchor_proof());
    let trigger = mix_flag(proof, role.is_anchor_trigger());
    let stage = mix_flag(trigger, role.is_anchor_stage(AnchorStageRole::Proof));
    let stages = mix_flag(stage, role.is_anchor_stage(AnchorStageRole::Trigger));
    mix_flag(stages, role.requires_prev_point())
}

fn mix_previous(sum: u64, info: &PointInfo, previous: Option<Id>) -> u64 {
    let has_prev_point = previous.is_some();
    let sticky = mix_option(sum, info.sticky_anchors(), mix_sticky);
    let digest = mix_option(sticky, previous, mix_id);
    let leader = mix_flag(digest, info.is_wave_link_ok(true, has_prev_point));
    mix_flag(leader, info.is_wave_link_ok(false, has_prev_point))
}

fn mix_links(sum: u64, point: &Point) -> u64 {
    let by_proof = point.through_id(point.info.anchor_proof.through());
    let by_trigger = point.through_id(point.info.anchor_trigger.through());
    let sources = mix_option(
        mix_option(sum, by_proof, mix_point_id),
        by_trigger,
        mix_point_id,
    );
    let view = mix_view(sources, point.anchor(AnchorStageRole::Proof));
    mix_view(view, point.anchor(AnchorStageRole::Trigger))
}

pub fn sum_of_point(point: &Point) -> u64 {
    let answers = mix_role_answers(mix_fields(point), point.info.role);
    let previous = mix_previous(answers, &point.info, point.prev_digest());
    mix_links(previous, point)
}
