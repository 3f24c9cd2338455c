// BasicVerifier of verifier.rs: whether a point is well formed, before any of its dependencies is known.
#![tactic(auto)]

ghost use Rattle.std.specs.Prelude.{◌≡◌, true, ◌≤◌, length};
ghost use Rattle.std.specs.Result.{result_err};
ghost use Rattle.parts.specs.Limits.{peers_room};
ghost use Rattle.point.specs.Said.{said};
ghost use Rattle.schedule.specs.Code.{settings_of};
ghost use Rattle.schedule.specs.PeerSchedule.{peer_schedule_of};
ghost use Rattle.rules.specs.Verify.{verify};
ghost use Rattle.reasons.specs.Refusal.{numbered};
ghost use Rattle.rules.specs.Judge.{tested, verify_with, verify_buffer};
ghost use Rattle.verify_peers.specs.Code.{BufferAfter};

use point::Point;
use reasons::{Refusal, VerifyError};
use schedule::{PeerSchedule, Settings};

// BasicVerifier::verify, of input that was read. The buffer's room is asked for as verify_peers does.
#[tactic(auto, using(crate::proofs::Laws::verify_facts))]
pub fn verify_point(
    conf: Settings,
    schedule: &PeerSchedule,
    point: &Point,
    peers: &mut [u8],
) -> Result<(), VerifyError>
    requires { peers_room ≤ length peers.old }
    ensures same { result_err result ≡ verify (settings_of conf) (peer_schedule_of schedule.now) (said point.now) }
    ensures buffer { BufferAfter conf schedule.now point.now (result_err result) peers.old peers.new }
{
    verify_new::check_new(conf, schedule, &point.info)?;
    verify_well_formed::check_well_formed(conf, point)?;
    verify_peers::check_peers(conf, schedule, point, peers)
}

// Numbers 1 to 5 in number order, then the verdict. The tests of 2 to 5 stand in judge and in book too: a function of them that hands out
// schedule and point copies both, and verifying 4 peers takes 3,025 instructions with it in place of 2,500.
#[tactic(auto, unfolding(rules::specs::Judge::tested_in))]
pub fn verify(
    settings: &[u8],
    schedule: &[u8],
    rec: &[u8],
    peers: &mut [u8],
) -> Result<Result<(), VerifyError>, Refusal>
    ensures same { numbered result ≡ verify_with (tested settings.now schedule.now rec.now true (length peers.old)) }
    ensures buffer { peers.new ≡ verify_buffer
        (tested settings.now schedule.now rec.now true (length peers.old)) peers.old }
{
    let conf = schedule::read_settings(settings).ok_or(Refusal::Settings)?;
    let schedule = schedule::read_peer_schedule(schedule).ok_or(Refusal::Schedule)?;
    let point = point::read_point(rec).ok_or(Refusal::Record)?;
    if !point.info.is_in_domain() {
        return Err(Refusal::Domain);
    }
    if peers.len() < parts::PEERS_ROOM {
        return Err(Refusal::Short);
    }
    Ok(verify_point(conf, &schedule, &point, peers))
}
