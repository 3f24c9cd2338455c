// check_well_formed, with PointInfo::check_structure and PointData::check_non_genesis_structure.
#![tactic(auto)]

ghost use Rattle.std.specs.Prelude.{◌≡◌};
ghost use Rattle.std.specs.Result.{result_err};
ghost use Rattle.parts.specs.Code.{number};
ghost use Rattle.base.specs.Base.{when, concat, first_of};
ghost use Rattle.point.specs.Point.{sticky_anchors, anchor_link, through, point_map};
ghost use Rattle.point.specs.Code.{link_of};
ghost use Rattle.point.specs.Said.{said};
ghost use Rattle.schedule.specs.Code.{settings_of};
ghost use Rattle.reasons.specs.declared.ill_formed.StructureIssue.TheVariants.{Link};
ghost use Rattle.rules.specs.Verify.{links_own, genesis_structure_rows, target_too_new, bad_link, own_point_rows, link_rows};
ghost use Rattle.rules.specs.Verify.{structure_rows, genesis_rows, sticky_fault, above_rows, well_formed_rows};

use parts::Id;
use point::{AnchorLink, AnchorStageRole, Point, PointInfo, PointMap, PointRole, Through};
use reasons::{IllFormedReason, StructureIssue, VerifyError};
use schedule::Settings;

// Whether a link goes directly to the author's own point among the includes.
#[tactic(auto, unfolding(rules::specs::Verify::links_own), using(point::proofs::Ids::same_words))]
fn links_own(author: Id, link: AnchorLink) -> bool
    ensures { result ≡ links_own (number author) (link_of link) }
{
    matches!(link, AnchorLink::Direct(Through::Includes(peer)) if peer == author)
}

// check_structure of genesis.
#[tactic(auto, unfolding(rules::specs::Verify::genesis_structure_rows), using(crate::proofs::Laws::point_rows))]
fn check_genesis_structure(point: &Point) -> Result<(), StructureIssue>
    ensures { result_err result ≡ first_of (concat (genesis_structure_rows (said point.now))) }
{
    let info = &point.info;
    let author = info.id.author;
    if info.role != PointRole::Genesis {
        return Err(StructureIssue::ExpectedGenesis(true));
    }
    if info.time != info.anchor_time {
        return Err(StructureIssue::AnchorTime);
    }
    if point.prev_digest() != Some(parts::NO_ID)
        || !links_own(author, info.anchor_proof)
        || !links_own(author, info.anchor_trigger)
    {
        return Err(StructureIssue::BadGenesisPrevPoint);
    }
    Ok(())
}

// Whether a link's target is not below the round of the map that the link goes through.
#[tactic(auto, unfolding(rules::specs::Verify::target_too_new))]
fn is_target_too_new(round: u32, link: AnchorLink) -> bool
    ensures { result ≡ target_too_new round (link_of link) }
{
    match link {
        AnchorLink::Direct(_) => false,
        AnchorLink::Indirect(indirect) => indirect.through.round(round) <= indirect.to.round,
    }
}

// Whether the peer that a link goes through is not in its map, or its target is too new.
#[tactic(auto, unfolding(rules::specs::Verify::bad_link), using(crate::proofs::Laws::point_rows))]
fn is_bad_link(point: &Point, link: AnchorLink) -> bool
    ensures { result ≡ bad_link (said point.now) (link_of link) }
{
    point.digest_safe(link.through()).is_none() || is_target_too_new(point.info.id.round, link)
}

// The author's own points: the previous one, and none among evidence and witness.
#[tactic(auto, unfolding(rules::specs::Verify::own_point_rows), using(crate::proofs::Laws::point_rows))]
fn check_own_points(point: &Point) -> Result<(), StructureIssue>
    ensures { result_err result ≡ first_of (concat (own_point_rows (said point.now))) }
{
    let author = point.info.id.author;
    let has_prev_point = point.prev_digest().is_some();
    if point.info.role.requires_prev_point() && !has_prev_point {
        return Err(StructureIssue::NoPrevPoint);
    }
    let evidence = point.evidence();
    let lacks_evidence = map::count(evidence, 32) == 0;
    if lacks_evidence == has_prev_point {
        return Err(StructureIssue::AuthorInMap(PointMap::Includes));
    }
    if map::search(evidence, 32, author).is_some() {
        return Err(StructureIssue::AuthorInMap(PointMap::Evidence));
    }
    if map::search(point.witness(), 64, author).is_some() {
        return Err(StructureIssue::AuthorInMap(PointMap::Witness));
    }
    Ok(())
}

// One anchor link.
#[tactic(auto, using(crate::proofs::Laws::point_rows))]
fn check_link(point: &Point, role: AnchorStageRole) -> Result<(), StructureIssue>
    ensures { result_err result ≡ first_of (when (bad_link (said point.now) (anchor_link role (said point.now)))
        (Link role (point_map (through (anchor_link role (said point.now)))))) }
{
    let link = point.info.anchor_link(role);
    if is_bad_link(point, link) {
        let map = link.through().into();
        return Err(StructureIssue::Link { role, map });
    }
    Ok(())
}

// The anchor links and the times.
#[tactic(auto, unfolding(rules::specs::Verify::link_rows), using(crate::proofs::Laws::point_rows))]
fn check_links(point: &Point) -> Result<(), StructureIssue>
    ensures { result_err result ≡ first_of (concat (link_rows (said point.now))) }
{
    let info = &point.info;
    if info.role.is_anchor_trigger() && !links_own(info.id.author, info.anchor_proof) {
        return Err(StructureIssue::TriggerBadProofLink);
    }
    check_link(point, AnchorStageRole::Proof)?;
    check_link(point, AnchorStageRole::Trigger)?;
    if info.time <= info.anchor_time {
        return Err(StructureIssue::AnchorTime);
    }
    Ok(())
}

// check_structure of any other point.
#[tactic(auto, using(crate::proofs::Laws::structure_facts))]
fn check_structure(point: &Point) -> Result<(), StructureIssue>
    ensures { result_err result ≡ first_of (concat (structure_rows (said point.now))) }
{
    if point.info.role == PointRole::Genesis {
        return Err(StructureIssue::ExpectedGenesis(false));
    }
    check_own_points(point)?;
    check_links(point)
}

#[tactic(auto, unfolding(rules::specs::Verify::genesis_rows), using(crate::proofs::Laws::point_rows))]
fn check_genesis(conf: Settings, point: &Point) -> Result<(), VerifyError>
    ensures { result_err result ≡ first_of (concat (genesis_rows (settings_of conf) (said point.now))) }
{
    let info = &point.info;
    if !parts::same(info.id.digest, conf.genesis_digest) {
        return Err(IllFormedReason::FalseGenesis.into());
    }
    if 0 < info.payload_len {
        return Err(IllFormedReason::TooLargePayload(info.payload_bytes).into());
    }
    check_genesis_structure(point)?;
    Ok(())
}

// The sequence number of a proof and its last flag.
#[tactic(auto, using(crate::proofs::Laws::sticky_facts))]
fn check_sticky(conf: Settings, info: &PointInfo) -> Result<(), VerifyError>
    ensures { result_err result ≡ first_of (sticky_fault (settings_of conf) (sticky_anchors info.now.role)) }
{
    let Some(sticky) = info.sticky_anchors() else {
        return Ok(());
    };
    if conf.sticky_anchors < sticky.seq_no {
        return Err(IllFormedReason::TooManyStickyAnchors(sticky.seq_no).into());
    }
    let at_limit = sticky.seq_no == conf.sticky_anchors;
    if sticky.is_last != at_limit {
        return Err(IllFormedReason::BadLastStickyFlag.into());
    }
    Ok(())
}

#[tactic(auto, unfolding(rules::specs::Verify::above_rows), using(crate::proofs::Laws::point_rows))]
fn check_above_genesis(conf: Settings, point: &Point) -> Result<(), VerifyError>
    ensures { result_err result ≡ first_of (concat (above_rows (settings_of conf) (said point.now))) }
{
    let info = &point.info;
    let round = info.id.round;
    if conf.payload_batch_bytes < info.payload_bytes {
        return Err(IllFormedReason::TooLargePayload(info.payload_bytes).into());
    }
    check_structure(point)?;
    check_sticky(conf, info)?;
    if info.anchor_proof.target_round(round) < conf.genesis_round
        || info.anchor_trigger.target_round(round) < conf.genesis_round
    {
        return Err(IllFormedReason::LinksAcrossGenesis.into());
    }
    Ok(())
}

#[tactic(auto, unfolding(rules::specs::Verify::well_formed_rows))]
pub fn check_well_formed(conf: Settings, point: &Point) -> Result<(), VerifyError>
    ensures { result_err result ≡ first_of (concat (well_formed_rows (settings_of conf) (said point.now))) }
{
    if point.info.id.round == conf.genesis_round {
        return check_genesis(conf, point);
    }
    check_above_genesis(conf, point)
}
