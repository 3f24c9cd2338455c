// The call: judging's tests, then the rows.
ghost use Rattle.std.specs.Prelude.{◌≡◌, ◌<◌, true, None, is_some, length};
ghost use Rattle.parts.specs.Limits.{peers_room};
ghost use Rattle.point.specs.Point.{PointInfo};
ghost use Rattle.point.specs.Said.{said};
ghost use Rattle.schedule.specs.Code.{settings_of};
ghost use Rattle.rules.specs.DagPoint.{point_view};
ghost use Rattle.rules.specs.Judge.{tested, needed, judge_from, flags_ok};
ghost use Rattle.rules.specs.List.{read_list};
ghost use Rattle.rules.specs.Force.{forceable_from, forced_of, force_with};
ghost use Rattle.judge_valid.specs.Code.{point_view_of};
ghost use Rattle.trail_rows.specs.Code.{Put, Filled};
ghost use Rattle.force_rows.specs.Code.{Matching};
ghost use Rattle.force.specs.Code.{missing, rows_over, Told};

use judge::Before;
use judge_valid::{By, PointView};
use point::{Point, PointMap};
use reasons::{InvalidReason, Refusal};
use schedule::Settings;
use trail_rows::{NO_PLACE, WIDTH, put_reason};

// The map whose round the presence rules miss: "The presence rules leave one reason only".
fn missing_map(presence: u8, point: &Point) -> Option<PointMap>
    ensures { result ≡ missing presence (said point.now) }
{
    match presence {
        0 => Some(PointMap::Evidence),
        1 => Some(PointMap::Includes),
        _ => judge::lacks_witness(presence, point).then_some(PointMap::Witness),
    }
}

// Puts all rows into the front of a lent list, if they fit; answers how many there are.
fn put_all(by: &By, rule: Option<PointMap>, list: &[u8], out: &mut [u8]) -> usize
    requires { rule ≡ None → is_some (read_list list.now) ≡ true }
    ensures few { result < 100000000 }
    ensures put { (p : PointInfo) → point_view_of by.now.view ≡ point_view p → (rule ≡ None → Matching p list.now) →
        Put out.old 0 (rows_over (settings_of by.now.conf) by.now.required p list.now rule) out.new result }
{
    match rule {
        Some(map) => put_reason(out, 0, NO_PLACE, Some(InvalidReason::NoRoundInDag(map))),
        None => force_rows::put_rows(by, list, out),
    }
}

// Fills a lent list; number 17 leaves it as it was. Where all rows fit for certain they are put at once, else they are counted first.
fn fill(by: &By, rule: Option<PointMap>, list: &[u8], out: &mut [u8]) -> Result<u32, Refusal>
    requires { rule ≡ None → is_some (read_list list.now) ≡ true }
    ensures { (p : PointInfo) → point_view_of by.now.view ≡ point_view p → (rule ≡ None → Matching p list.now) →
        Filled 17 (rows_over (settings_of by.now.conf) by.now.required p list.now rule) out.old out.new result }
{
    if trail_rows::fit_for_certain(list, out) {
        return Ok(put_all(by, rule, list, out) as u32);
    }
    let rows = put_all(by, rule, list, &mut []);
    if out.len() < WIDTH * rows {
        return Err(Refusal::Forced);
    }
    put_all(by, rule, list, out);
    Ok(rows as u32)
}

// Of a point that has no answer yet, after it was judged.
fn forced_needed(
    conf: Settings,
    required: bool,
    presence: u8,
    point: &Point,
    list: &[u8],
    out: &mut [u8],
) -> Result<u32, Refusal>
    ensures { Told (forced_of (judge_from (settings_of conf) presence (said point.now) list.now (needed required))
        (forceable_from (settings_of conf) presence (said point.now) list.now (needed required)) (length out.old)) out.old out.new result }
{
    judge::judge_needed(conf, required, presence, point, list)?;
    let by = By {
        conf,
        required,
        view: PointView::from(point),
    };
    fill(&by, missing_map(presence, point), list, out)
}

// Judges as `judge` does, without a peer buffer, and writes a row for each reason that some order of the entries gives into the front of
// the lent list: number 17 if it has space for fewer.
pub fn forced(
    settings: &[u8],
    schedule: &[u8],
    rec: &[u8],
    leader: u8,
    presence: u8,
    list: &[u8],
    out: &mut [u8],
) -> Result<u32, Refusal>
    ensures { Told (force_with leader presence list.now
        (tested settings.now schedule.now rec.now (flags_ok leader presence) peers_room) (length out.old)) out.old out.new result }
{
    let input = judge::admit(settings, schedule, rec, leader, presence)?;
    let mut peers = [0; parts::PEERS_ROOM];
    match judge::before_list(
        input.conf,
        &input.schedule,
        &input.point,
        leader == 1,
        &mut peers,
    )? {
        Before::Judged(_) => Ok(0),
        Before::Needed(required) => forced_needed(
            input.conf,
            required,
            presence,
            &input.point,
            list,
            out,
        ),
    }
}
