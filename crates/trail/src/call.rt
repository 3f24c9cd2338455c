// The call: judging, then the rows of an Invalid verdict.
ghost use Rattle.std.specs.Prelude.{◌≡◌, ◌*◌, true, not, ◌&&◌, ◌||◌, ◌≤◌, ◌<◌, None, is_some, length, ltb, eqb, option_map};
ghost use Rattle.base.specs.Base.{is_empty};
ghost use Rattle.parts.specs.Bytes.{put_at};
ghost use Rattle.point.specs.Point.{PointInfo};
ghost use Rattle.point.specs.Said.{said};
ghost use Rattle.schedule.specs.Code.{settings_of};
ghost use Rattle.reasons.specs.Code.{reason_of, verdict_of};
ghost use Rattle.rules.specs.DagPoint.{point_view};
ghost use Rattle.rules.specs.Judge.{tested, verify_buffer, needed, judge_from, flags_ok, judge_with};
ghost use Rattle.rules.specs.List.{read_list};
ghost use Rattle.rules.specs.Trail.{rows_bytes, trail_from, trail_with};
ghost use Rattle.judge_valid.specs.Code.{point_view_of};
ghost use Rattle.trail_rows.specs.Code.{Put, Filled};
ghost use Rattle.trail.specs.Code.{ReasonOf, rows_over, Kept};
ghost use Rattle.trail.specs.Call.{Told};

use crate::walk;
use judge::Before;
use judge_valid::{By, PointView};
use point::Point;
use reasons::{InvalidReason, Refusal, Verdict};
use schedule::Settings;
use trail_rows::{NO_PLACE, WIDTH, put_reason};

// A verdict, and how many rows say every rule that fired.
#[derive(Clone, Copy)]
pub struct Trailed {
    pub verdict: Verdict,
    pub rows: u32,
}

fn invalid_reason(verdict: Verdict) -> Option<InvalidReason>
    ensures { ReasonOf (verdict_of verdict) (option_map reason_of result) }
{
    match verdict {
        Verdict::Invalid(reason) => Some(reason),
        Verdict::Fail(_) | Verdict::IllFormed(_) | Verdict::TransInvalid(_) | Verdict::Valid => {
            None
        }
    }
}

// Whether a point that is Invalid is so by the presence rule, without its list.
fn is_by_presence(presence: u8, point: &Point) -> bool
    ensures { result ≡ (ltb presence 2 || (eqb presence 2 && not (is_empty (said point.now).witness))) }
{
    presence < 2 || judge::lacks_witness(presence, point)
}

// Puts all rows into the front of a trail, if they fit; answers how many there are. One where a reason stands alone.
fn put_all(by: &By, alone: Option<InvalidReason>, list: &[u8], out: &mut [u8]) -> usize
    requires { alone ≡ None → is_some (read_list list.now) ≡ true }
    ensures put { (p : PointInfo) → point_view_of by.now.view ≡ point_view p →
        Put out.old 0 (rows_over (settings_of by.now.conf) by.now.required p list.now (option_map reason_of alone)) out.new result }
    ensures few { result < 1000000 }
{
    match alone {
        Some(_) => put_reason(out, 0, NO_PLACE, alone),
        None => walk::put_rows(by, list, out),
    }
}

// How many rows are kept from counting them. To keep 1,024 costs each trail whose rows are counted 8,000 instructions more.
const KEPT: usize = 256;

// Writes all rows, which fit, into the front of a trail: those that were kept, or once more over the list.
fn write_all(
    by: &By,
    alone: Option<InvalidReason>,
    list: &[u8],
    kept: &[u8],
    trail: &mut [u8],
    rows: usize,
)
    requires reads { alone ≡ None → is_some (read_list list.now) ≡ true }
    requires fits { 8 * rows ≤ length trail.old }
    ensures { (p : PointInfo) → point_view_of by.now.view ≡ point_view p →
        Kept (rows_over (settings_of by.now.conf) by.now.required p list.now (option_map reason_of alone)) kept.now rows →
        trail.new ≡ put_at trail.old 0 (rows_bytes (rows_over (settings_of by.now.conf) by.now.required p list.now (option_map reason_of alone))) }
{
    if kept.len() < WIDTH * rows {
        put_all(by, alone, list, trail);
        return;
    }
    write::put_slice(trail, 0, &kept[..WIDTH * rows]);
}

// Fills a trail; number 15 leaves it as it was. Where all rows fit for certain, one walk puts them. Else they are counted first, and counting
// keeps the first of them, so that most lists are still walked once.
fn fill(
    by: &By,
    alone: Option<InvalidReason>,
    list: &[u8],
    trail: &mut [u8],
) -> Result<u32, Refusal>
    requires { alone ≡ None → is_some (read_list list.now) ≡ true }
    ensures { (p : PointInfo) → point_view_of by.now.view ≡ point_view p →
        Filled 15 (rows_over (settings_of by.now.conf) by.now.required p list.now (option_map reason_of alone)) trail.old trail.new result }
{
    if trail_rows::fit_for_certain(list, trail) {
        return Ok(put_all(by, alone, list, trail) as u32);
    }
    let mut kept = [0; WIDTH * KEPT];
    let rows = put_all(by, alone, list, &mut kept);
    if trail.len() < WIDTH * rows {
        return Err(Refusal::Trail);
    }
    write_all(by, alone, list, &kept, trail, rows);
    Ok(rows as u32)
}

// Judges a point that has no answer yet, as `judge_needed` does, and puts the rows.
fn trail_needed(
    conf: Settings,
    required: bool,
    presence: u8,
    point: &Point,
    list: &[u8],
    trail: &mut [u8],
) -> Result<Trailed, Refusal>
    ensures { Told (judge_from (settings_of conf) presence (said point.now) list.now (needed required))
        (trail_from (settings_of conf) presence (said point.now) list.now (needed required)) trail.old trail.new result }
{
    let verdict = judge::judge_needed(conf, required, presence, point, list)?;
    let Some(reason) = invalid_reason(verdict) else {
        return Ok(Trailed { verdict, rows: 0 });
    };
    let by = By {
        conf,
        required,
        view: PointView::from(point),
    };
    let alone = is_by_presence(presence, point).then_some(reason);
    let rows = fill(&by, alone, list, trail)?;
    Ok(Trailed { verdict, rows })
}

// Judges as `judge` does, and writes a row for each reason that was set into the front of the trail: number 15 if it has space for fewer.
pub fn judge_with_trail(
    settings: &[u8],
    schedule: &[u8],
    rec: &[u8],
    leader: u8,
    presence: u8,
    list: &[u8],
    peers: &mut [u8],
    trail: &mut [u8],
) -> Result<Trailed, Refusal>
    ensures told { Told
        (judge_with leader presence list.now
        (tested settings.now schedule.now rec.now (flags_ok leader presence) (length peers.old)))
        (trail_with leader presence list.now
        (tested settings.now schedule.now rec.now (flags_ok leader presence) (length peers.old)))
        trail.old trail.new result }
    ensures buffer { peers.new ≡ verify_buffer
        (tested settings.now schedule.now rec.now (flags_ok leader presence) (length peers.old))
        peers.old }
{
    let input = judge::admit(settings, schedule, rec, leader, presence)?;
    if peers.len() < parts::PEERS_ROOM {
        return Err(Refusal::Short);
    }
    match judge::before_list(
        input.conf,
        &input.schedule,
        &input.point,
        leader == 1,
        peers,
    )? {
        Before::Judged(verdict) => Ok(Trailed { verdict, rows: 0 }),
        Before::Needed(required) => {
            trail_needed(input.conf, required, presence, &input.point, list, trail)
        }
    }
}
