// What is known of a point before any list is read.
ghost use Rattle.std.specs.Prelude.{◌≡◌, List, ℕ, ◌≤◌, length, eqb, None};
ghost use Rattle.parts.specs.Limits.{peers_room};
ghost use Rattle.point.specs.Said.{said};
ghost use Rattle.schedule.specs.Code.{settings_of, schedule_of};
ghost use Rattle.schedule.specs.PeerSchedule.{peer_schedule_of};
ghost use Rattle.rules.specs.Verify.{verify};
ghost use Rattle.rules.specs.CheckIllFormed.{wave_checked};
ghost use Rattle.rules.specs.Judge.{before_with, before};
ghost use Rattle.judge.specs.Code.{before_of};
ghost use Rattle.verify_peers.specs.Code.{BufferAfter};

use point::Point;
use reasons::{Refusal, Verdict, WaveChecked};
use schedule::{PeerSchedule, Schedule, Settings};

// A verdict, or that the list is needed if presence is 2 or 3, regular points required or not. No Result, since neither is a failure.
#[derive(Clone, Copy)]
pub enum Before {
    Judged(Verdict),
    Needed(bool),
}

// What is known of a verified point: genesis is Valid, else check_ill_formed tells.
fn before_verified(
    conf: Settings,
    schedule: Schedule,
    point: &Point,
    is_leader: bool,
) -> Result<Before, Refusal>
    ensures { (s : List ℕ) →
        before_of result ≡ before_with None (eqb point.now.info.id.round (settings_of conf).genesis_round)
        (wave_checked (schedule_of s schedule) is_leader (said point.now)) }
{
    if point.info.id.round == conf.genesis_round {
        return Ok(Before::Judged(Verdict::Valid));
    }
    match judge_ill_formed::check_ill_formed(schedule, point, is_leader) {
        WaveChecked::Horizon => Err(Refusal::Horizon),
        WaveChecked::IllFormed(reason) => Ok(Before::Judged(Verdict::IllFormed(reason))),
        WaveChecked::Sound(required) => Ok(Before::Needed(required)),
    }
}

// A verification that didn't pass ends the judgement. Unknown peers go into the buffer, whose room is asked for as verify_peers
// does.
pub fn before_list(
    conf: Settings,
    schedule: &PeerSchedule,
    point: &Point,
    is_leader: bool,
    peers: &mut [u8],
) -> Result<Before, Refusal>
    requires { peers_room ≤ length peers.old }
    ensures same { before_of result ≡ before (settings_of conf) (peer_schedule_of schedule.now) is_leader (said point.now) }
    ensures buffer { BufferAfter conf schedule.now point.now
        (verify (settings_of conf) (peer_schedule_of schedule.now) (said point.now)) peers.old peers.new }
{
    let Err(error) = verify::verify_point(conf, schedule, point, peers) else {
        return before_verified(conf, schedule.schedule, point, is_leader);
    };
    Ok(Before::Judged(error.into()))
}
