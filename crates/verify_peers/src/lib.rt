// check_peers: the peers of the maps are scheduled, and there are enough of them. That the peer buffer has its room is asked of each
// function: an array of that length would refuse the longer buffers that callers may lend.
#![tactic(auto)]

ghost use Rattle.std.specs.Prelude.{◌≡◌, true, ◌≤◌, ltb, length};
ghost use Rattle.std.specs.Result.{result_err};
ghost use Rattle.base.specs.Base.{when, concat, first_of};
ghost use Rattle.parts.specs.Parts.{one_f};
ghost use Rattle.parts.specs.Limits.{peers_room};
ghost use Rattle.map.specs.Rows.{peers_of, rising};
ghost use Rattle.point.specs.Said.{said};
ghost use Rattle.schedule.specs.Code.{settings_of};
ghost use Rattle.parts.specs.Bytes.{put_at};
ghost use Rattle.map.specs.Written.{peer_bytes};
ghost use Rattle.rules.specs.Unknown.{unknown_in};
ghost use Rattle.reasons.specs.declared.ill_formed.IllFormedReason.TheVariants.{LackOfPeers};
ghost use Rattle.reasons.specs.declared.ill_formed.VerifyError.TheVariants.{IllFormed};
ghost use Rattle.rules.specs.Verify.{unknown_row, includes_round, evidence_rows, includes_rows, witness_rows};
ghost use Rattle.verify_peers.specs.Code.{scheduled_by, PeersChecked, BufferAfter};

use parts::PeerCount;
use point::{Point, PointMap};
use reasons::{IllFormedReason, VerifyError};
use schedule::{PeerSchedule, Settings};

// F of a scheduled set: it has one peer at genesis. Not `TryFrom`, which refuses a set of one.
fn one_f(total: usize) -> PeerCount
    requires { total ≤ 255 }
    ensures { result.0 ≡ one_f total }
{
    PeerCount(((total + 1) / 3) as u8)
}

// The peers of a map that are not scheduled are a fault, and stand in the peer buffer.
#[tactic(auto, using(crate::proofs::Laws::known_facts))]
fn check_known(
    rows: &[u8],
    width: usize,
    known: &[u8],
    map: PointMap,
    peers: &mut [u8],
) -> Result<(), VerifyError>
    requires le_width { 32 ≤ width }
    requires rows_value { rising (peers_of width rows.now) ≡ true }
    requires rows_len_bound { length (peers_of width rows.now) ≤ 255 }
    requires known_value { rising (peers_of 32 known.now) ≡ true }
    requires peers_room_in_bounds { peers_room ≤ length peers.old }
    ensures checked { result_err result ≡ first_of
        (unknown_row (unknown_in (peers_of 32 known.now) (peers_of width rows.now)) map) }
    ensures buffer { peers.new ≡ put_at peers.old 0
        (peer_bytes (unknown_in (peers_of 32 known.now) (peers_of width rows.now))) }
{
    let unknown = verify_unknown::unknown_peers(rows, width, known, peers);
    if 0 < unknown {
        let unknown = unknown as u8;
        return Err(IllFormedReason::UnknownPeers { unknown, map }.into());
    }
    Ok(())
}

// Whether a map has the peers that it needs, where F is that of the scheduled ones.
#[tactic(auto, using(base::proofs::Firsts::row_steps))]
fn check_enough(
    len: usize,
    needed: usize,
    total: PeerCount,
    map: PointMap,
) -> Result<(), VerifyError>
    requires { len ≤ 255 }
    ensures { result_err result ≡ first_of (when (ltb len needed) (IllFormed (LackOfPeers len total map))) }
{
    if len < needed {
        let len = len as u8;
        return Err(IllFormedReason::LackOfPeers { len, total, map }.into());
    }
    Ok(())
}

// Evidence, checked against the peers of the point's own round. The three maps have no function in common: each asks
// something that the others don't. Settings, schedule and point stay apart: no fact joins them, and before
// this check_new takes the point's info alone and check_well_formed no schedule.
#[tactic(auto, unfolding(rules::specs::Verify::evidence_rows, rules::specs::Verify::scheduled), using(crate::proofs::Laws::peer_facts))]
fn check_evidence_peers(
    conf: Settings,
    schedule: &PeerSchedule,
    point: &Point,
    peers: &mut [u8],
) -> Result<(), VerifyError>
    requires { peers_room ≤ length peers.old }
    ensures checked { result_err result ≡ first_of
        (concat (evidence_rows (settings_of conf) (scheduled_by conf schedule.now point.now) (said point.now))) }
    ensures buffer { BufferAfter conf schedule.now point.now (result_err result) peers.old peers.new }
{
    let round = point.info.id.round;
    let evidence = point.evidence();
    let len = map::count(evidence, 32);
    if len == 0 {
        return Ok(());
    }
    if round == conf.genesis_round {
        return Err(IllFormedReason::MustBeEmpty(PointMap::Evidence).into());
    }
    let known = schedule.peers_for(round);
    check_known(evidence, 32, known, PointMap::Evidence, peers)?;
    let total = one_f(map::count(known, 32));
    check_enough(len, total.majority_of_others(), total, PointMap::Evidence)
}

// The round whose peers includes are checked against.
#[tactic(auto, using(std::proofs::lemmas::Bool::Decides::nat_tests))]
fn includes_round(conf: Settings, round: u32) -> u32
    ensures { result ≡ includes_round (settings_of conf) round }
{
    if round == conf.genesis_round {
        return round;
    }
    parts::rounds_back(round, 1)
}

// Includes, checked against the peers of the round before, at genesis of the same round.
#[tactic(auto, unfolding(rules::specs::Verify::includes_rows, rules::specs::Verify::scheduled), using(crate::proofs::Laws::peer_facts))]
fn check_includes_peers(
    conf: Settings,
    schedule: &PeerSchedule,
    point: &Point,
    peers: &mut [u8],
) -> Result<(), VerifyError>
    requires { peers_room ≤ length peers.old }
    ensures checked { result_err result ≡ first_of
        (concat (includes_rows (scheduled_by conf schedule.now point.now) (said point.now))) }
    ensures buffer { BufferAfter conf schedule.now point.now (result_err result) peers.old peers.new }
{
    let includes = point.includes();
    let known = schedule.peers_for(includes_round(conf, point.info.id.round));
    check_known(includes, 64, known, PointMap::Includes, peers)?;
    let len = map::count(includes, 64);
    let total = one_f(map::count(known, 32));
    check_enough(len, total.majority(), total, PointMap::Includes)
}

// Witness, checked against the peers two rounds before; at genesis and just above it there must be none.
#[tactic(auto, unfolding(rules::specs::Verify::witness_rows, rules::specs::Verify::scheduled), using(crate::proofs::Laws::peer_facts))]
fn check_witness_peers(
    conf: Settings,
    schedule: &PeerSchedule,
    point: &Point,
    peers: &mut [u8],
) -> Result<(), VerifyError>
    requires { peers_room ≤ length peers.old }
    ensures checked { result_err result ≡ first_of
        (concat (witness_rows (settings_of conf) (scheduled_by conf schedule.now point.now) (said point.now))) }
    ensures buffer { BufferAfter conf schedule.now point.now (result_err result) peers.old peers.new }
{
    let witness = point.witness();
    if map::count(witness, 64) == 0 {
        return Ok(());
    }
    let round = parts::rounds_back(point.info.id.round, 2);
    if round < conf.genesis_round {
        return Err(IllFormedReason::MustBeEmpty(PointMap::Witness).into());
    }
    let known = schedule.peers_for(round);
    check_known(witness, 64, known, PointMap::Witness, peers)
}

#[tactic(auto, using(crate::proofs::Laws::peer_first))]
pub fn check_peers(
    conf: Settings,
    schedule: &PeerSchedule,
    point: &Point,
    peers: &mut [u8],
) -> Result<(), VerifyError>
    requires { peers_room ≤ length peers.old }
    ensures checked { PeersChecked conf schedule.now point.now (result_err result) }
    ensures buffer { BufferAfter conf schedule.now point.now (result_err result) peers.old peers.new }
{
    check_evidence_peers(conf, schedule, point, peers)?;
    check_includes_peers(conf, schedule, point, peers)?;
    check_witness_peers(conf, schedule, point, peers)
}
