// Verifier::validate of verifier.rs on points whose dependencies are listed in the order of their arrival.
#![tactic(auto)]

mod before;

ghost use Rattle.std.specs.Prelude.{◌≡◌, ℕ, not, ◌&&◌, ◌≤◌, length, eqb};
ghost use Rattle.base.specs.Base.{is_empty};
ghost use Rattle.point.specs.Said.{said};
ghost use Rattle.point.specs.Point.{in_domain};
ghost use Rattle.schedule.specs.Code.{settings_of};
ghost use Rattle.reasons.specs.Invalid.{NoRoundInDag};
ghost use Rattle.reasons.specs.Verdict.{Invalid};
ghost use Rattle.rules.specs.Judge.{tested, verify_buffer, Given, needed, over_list, judge_from, flags_ok, judge_with};
ghost use Rattle.rules.specs.List.{read_list};
ghost use Rattle.judge.specs.Code.{judge_answer_of};
ghost use Rattle.judge.specs.Input.{tested_of};

pub use before::{Before, before_list};
use point::{Point, PointMap};
use reasons::{InvalidReason, Refusal, Verdict};
use schedule::{PeerSchedule, Settings};

fn no_round(map: PointMap) -> Result<Verdict, Refusal>
    ensures { judge_answer_of result ≡ Given (Invalid (NoRoundInDag map)) }
{
    Ok(Verdict::Invalid(InvalidReason::NoRoundInDag(map)))
}

// Whether the point has a witness whose round is not in the DAG.
#[tactic(auto, using(point::proofs::Maps::map_facts, base::proofs::Lists::filled))]
pub fn lacks_witness(presence: u8, point: &Point) -> bool
    ensures { result ≡ (eqb presence 2 && not (is_empty (said point.now).witness)) }
{
    presence == 2 && 0 < map::count(point.witness(), 64)
}

// Numbers 7 to 9, and the verdict over the list. Settings, point and whether regular points are required stay apart here: a By is made
// of them where the list is walked.
fn judge_over_list(
    conf: Settings,
    required: bool,
    presence: u8,
    point: &Point,
    list: &[u8],
) -> Result<Verdict, Refusal>
    requires { 2 ≤ presence }
    ensures { judge_answer_of result ≡ over_list (settings_of conf) required presence (said point.now) (read_list list.now) }
{
    let judged = judge_list::judge_list(conf, required, point, list).ok_or(Refusal::Entries)?;
    if judge_mismatch::is_mismatch(presence, point, list) {
        return Err(Refusal::Mismatch);
    }
    if judged.uncovered {
        return Err(Refusal::Uncovered);
    }
    if lacks_witness(presence, point) {
        return no_round(PointMap::Witness);
    }
    Ok(judged.verdict)
}

// Judges a point that has no answer yet by how many of its rounds are in the DAG, a number of the call that is read here: with two
// or three its list is needed.
pub fn judge_needed(
    conf: Settings,
    required: bool,
    presence: u8,
    point: &Point,
    list: &[u8],
) -> Result<Verdict, Refusal>
    ensures { judge_answer_of result ≡ judge_from (settings_of conf) presence (said point.now) list.now (needed required) }
{
    match presence {
        0 => no_round(PointMap::Evidence),
        1 => no_round(PointMap::Includes),
        _ => judge_over_list(conf, required, presence, point, list),
    }
}

// What judging reads of its input, before it looks at any list.
#[derive(Clone, Copy)]
pub struct Input<'a> {
    pub conf: Settings,
    pub schedule: PeerSchedule<'a>,
    pub point: Point<'a>,
}

// Numbers 1 to 4 in number order. For calls that test what judging tests: number 5 is left to those that are lent a peer buffer. With the
// attribute nothing is copied, see D34.
#[inline(always)]
#[tactic(auto, unfolding(rules::specs::Judge::tested_in), using(crate::proofs::Laws::parts_read))]
pub fn admit<'a>(
    settings: &[u8],
    schedule: &'a [u8],
    rec: &'a [u8],
    leader: u8,
    presence: u8,
) -> Result<Input<'a>, Refusal>
    ensures { (size : ℕ) → tested_of size result ≡ tested settings.now schedule.now rec.now (flags_ok leader presence) size }
{
    let conf = schedule::read_settings(settings).ok_or(Refusal::Settings)?;
    let schedule = schedule::read_peer_schedule(schedule).ok_or(Refusal::Schedule)?;
    let point = point::read_point(rec).ok_or(Refusal::Record)?;
    if !are_in_domain(&point, leader, presence) {
        return Err(Refusal::Domain);
    }
    Ok(Input {
        conf,
        schedule,
        point,
    })
}

// Numbers 1 to 5 in number order, then the judgement. The parameters are document 01's, in its order.
#[tactic(auto, unfolding(rules::specs::Judge::judge_with_in))]
pub fn judge(
    settings: &[u8],
    schedule: &[u8],
    rec: &[u8],
    leader: u8,
    presence: u8,
    list: &[u8],
    peers: &mut [u8],
) -> Result<Verdict, Refusal>
    ensures same { judge_answer_of result ≡ judge_with leader presence list.now
        (tested settings.now schedule.now rec.now (flags_ok leader presence) (length peers.old)) }
    ensures buffer { peers.new ≡ verify_buffer
        (tested settings.now schedule.now rec.now (flags_ok leader presence) (length peers.old))
        peers.old }
{
    let input = admit(settings, schedule, rec, leader, presence)?;
    if peers.len() < parts::PEERS_ROOM {
        return Err(Refusal::Short);
    }
    match before_list(
        input.conf,
        &input.schedule,
        &input.point,
        leader == 1,
        peers,
    )? {
        Before::Judged(verdict) => Ok(verdict),
        Before::Needed(required) => {
            judge_needed(input.conf, required, presence, &input.point, list)
        }
    }
}

// Whether the point, the leader flag and the presence lie in the domain.
fn are_in_domain(point: &Point, leader: u8, presence: u8) -> bool
    ensures { result ≡ (in_domain (said point.now) && flags_ok leader presence) }
{
    point.info.is_in_domain() && leader <= 1 && presence <= 3
}
