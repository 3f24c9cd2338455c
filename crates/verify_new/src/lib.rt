// BasicVerifierInner::new: the peer sets of the point's rounds, its author, and the targets of its links.
#![tactic(auto)]

ghost use Rattle.std.specs.Prelude.{◌≡◌, List, ℕ, is_some};
ghost use Rattle.std.specs.Result.{result_err};
ghost use Rattle.base.specs.Base.{when, concat, first_of};
ghost use Rattle.parts.specs.Code.{number};
ghost use Rattle.map.specs.Rows.{find};
ghost use Rattle.schedule.specs.Code.{settings_of};
ghost use Rattle.schedule.specs.PeerSchedule.{peer_schedule_of};
ghost use Rattle.schedule.specs.Schedule.{peers_for};
ghost use Rattle.point.specs.Code.{link_of, point_of};
ghost use Rattle.reasons.specs.declared.ill_formed.IllFormedReason.TheVariants.{UnknownPeerInAnchorLink};
ghost use Rattle.reasons.specs.declared.ill_formed.VerifyError.TheVariants.{IllFormed};
ghost use Rattle.rules.specs.Verify.{bad_count, unknown_target, vset_row, new_rows};

use parts::{Id, PeerCount};
use point::{AnchorLink, AnchorStageRole, PointInfo, PointMap};
use reasons::{IllFormedReason, UninitVset, VerifyError};
use schedule::{PeerSchedule, Settings};

// peer_count_genesis and peer_count: whether a peer set is too small or, at genesis, not of one peer.
#[tactic(auto, unfolding(rules::specs::Verify::bad_count, parts::specs::Parts::peer_count))]
fn is_bad_count(conf: Settings, round: u32, len: u8) -> bool
    ensures { result ≡ bad_count (settings_of conf) round len }
{
    if round < conf.genesis_round {
        return false;
    }
    if round == conf.genesis_round {
        return len as usize != PeerCount::GENESIS.full();
    }
    PeerCount::try_from(len).is_err()
}

// The peer set of a round, asked for a map.
#[tactic(auto, unfolding(rules::specs::Verify::vset_row, base::specs::Base::first_of))]
fn check_vset(
    conf: Settings,
    schedule: &PeerSchedule,
    round: u32,
    map: PointMap,
) -> Result<(), VerifyError>
    ensures { result_err result ≡ first_of (vset_row (settings_of conf) (peer_schedule_of schedule.now) round map) }
{
    let len = map::count(schedule.peers_for(round), 32) as u8;
    if is_bad_count(conf, round, len) {
        return Err(VerifyError::Fail(UninitVset { len, round, map }));
    }
    Ok(())
}

// Whether a peer is among those that are scheduled at a round.
fn is_scheduled(schedule: &PeerSchedule, round: u32, peer: Id) -> bool
    ensures { result ≡ is_some (find (peers_for (peer_schedule_of schedule.now) round) (number peer)) }
{
    map::search(schedule.peers_for(round), 32, peer).is_some()
}

// Whether the target of a link has an author who is not scheduled at its round.
#[tactic(auto, unfolding(rules::specs::Verify::unknown_target))]
fn is_unknown_target(schedule: &PeerSchedule, link: AnchorLink) -> bool
    ensures { result ≡ unknown_target (peer_schedule_of schedule.now) (link_of link) }
{
    match link {
        AnchorLink::Direct(_) => false,
        AnchorLink::Indirect(indirect) => {
            !is_scheduled(schedule, indirect.to.round, indirect.to.author)
        }
    }
}

// The target of a link of a role.
#[tactic(auto, using(base::proofs::Firsts::row_steps))]
fn check_target(
    schedule: &PeerSchedule,
    link: AnchorLink,
    role: AnchorStageRole,
) -> Result<(), VerifyError>
    ensures { result_err result ≡ first_of
        (when (unknown_target (peer_schedule_of schedule.now) (link_of link)) (IllFormed (UnknownPeerInAnchorLink role))) }
{
    if is_unknown_target(schedule, link) {
        return Err(IllFormedReason::UnknownPeerInAnchorLink(role).into());
    }
    Ok(())
}

// The checks of `new`, of a point whatever its maps.
#[tactic(auto, unfolding(rules::specs::Verify::new_rows), using(base::proofs::Firsts::row_steps))]
pub fn check_new(
    conf: Settings,
    schedule: &PeerSchedule,
    info: &PointInfo,
) -> Result<(), VerifyError>
    ensures { (s : List ℕ) → result_err result ≡ first_of
        (concat (new_rows (settings_of conf) (peer_schedule_of schedule.now) (point_of s info.now))) }
{
    let round = info.id.round;
    if round < conf.genesis_round {
        return Err(IllFormedReason::BeforeGenesis.into());
    }
    check_vset(conf, schedule, round, PointMap::Evidence)?;
    if !is_scheduled(schedule, round, info.id.author) {
        return Err(IllFormedReason::UnknownAuthor.into());
    }
    let prev = parts::rounds_back(round, 1);
    check_vset(conf, schedule, prev, PointMap::Includes)?;
    let before_prev = parts::rounds_back(round, 2);
    check_vset(conf, schedule, before_prev, PointMap::Witness)?;
    check_target(schedule, info.anchor_proof, AnchorStageRole::Proof)?;
    check_target(schedule, info.anchor_trigger, AnchorStageRole::Trigger)
}
