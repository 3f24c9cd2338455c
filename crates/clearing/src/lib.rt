// The certificate that would clear a trans-invalid point (document 02, U13).
#![tactic(auto)]

ghost use Rattle.std.specs.Prelude.{◌≡◌};
ghost use Rattle.point.specs.Said.{said};
ghost use Rattle.schedule.specs.Code.{settings_of};
ghost use Rattle.reasons.specs.Code.{verdict_of};
ghost use Rattle.rules.specs.Judge.{needed};
ghost use Rattle.rules.specs.Clearing.{tested_without, clearing_with};
ghost use Rattle.clearing.specs.Code.{clearing_of, clearing_from, is_trans_invalid};

mod put;
mod search;

use judge::Before;
use judge_valid::{By, PointView};
use point::{Point, PointId};
pub use put::put_clearing;
use reasons::{Refusal, Verdict};
use schedule::Settings;

// What a point waits for: nothing, since its verdict is not TransInvalid; more than one certificate; or that of one point.
#[derive(Clone, Copy)]
pub enum Clearing {
    NotWaiting,
    NoSingleMark,
    ClearedBy(PointId),
}

fn is_trans_invalid(verdict: Verdict) -> bool
    ensures { result ≡ is_trans_invalid (verdict_of verdict) }
{
    matches!(verdict, Verdict::TransInvalid(_))
}

// What a point waits for whose list is needed.
#[tactic(auto, using(crate::proofs::Laws::from_facts))]
fn over_list(
    conf: Settings,
    required: bool,
    presence: u8,
    point: &Point,
    list: &[u8],
) -> Result<Clearing, Refusal>
    ensures { clearing_of result ≡ clearing_from (settings_of conf) presence (said point.now) list.now (needed required) }
{
    let verdict = judge::judge_needed(conf, required, presence, point, list)?;
    if !is_trans_invalid(verdict) {
        return Ok(Clearing::NotWaiting);
    }
    let by = By {
        conf,
        required,
        view: PointView::from(point),
    };
    Ok(search::search(&by, list))
}

// Numbers 1 to 4 and 6 to 9 as judging has them, then what the point waits for. The parameters are those of judging, without a peer buffer.
pub fn waits_for(
    settings: &[u8],
    schedule: &[u8],
    rec: &[u8],
    leader: u8,
    presence: u8,
    list: &[u8],
) -> Result<Clearing, Refusal>
    ensures { clearing_of result ≡ clearing_with leader presence list.now (tested_without settings.now schedule.now rec.now leader presence) }
{
    let input = judge::admit(settings, schedule, rec, leader, presence)?;
    let mut peers = [0; parts::PEERS_ROOM];
    match judge::before_list(
        input.conf,
        &input.schedule,
        &input.point,
        leader == 1,
        &mut peers,
    )? {
        Before::Judged(_) => Ok(Clearing::NotWaiting),
        Before::Needed(required) => over_list(input.conf, required, presence, &input.point, list),
    }
}
