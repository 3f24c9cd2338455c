// A list of dependencies, read and judged entry by entry in one walk.
#![tactic(auto)]

ghost use Rattle.std.specs.Prelude.{◌≡◌, true, None, option_map};
ghost use Rattle.point.specs.Code.{point_id_of};
ghost use Rattle.point.specs.Said.{said};
ghost use Rattle.schedule.specs.Code.{settings_of};
ghost use Rattle.reasons.specs.Code.{verdict_of};
ghost use Rattle.rules.specs.List.{is_in_order, read_list};
ghost use Rattle.judge_entries.specs.Entry.{entry_of};
ghost use Rattle.judge_valid.specs.Code.{point_view_of};
ghost use Rattle.judge_step.specs.Code.{judging_of, gives_of, Quiet, result_of};
ghost use Rattle.rules.specs.Mismatch.{is_id, uncovers};
ghost use Rattle.judge_list.specs.Code.{viewed, prev_in, walk_with, walk_start, viewed_of, with_listed, ListedGives};
ghost use Rattle.judge_list.specs.Code.{walk_of, judged_with, judged_list_of};

use judge_entries::{Entry, Listed};
use judge_step::{Gives, Judging};
use judge_valid::{By, PointView, Quick};
use point::{AnchorStageRole, Point, PointId, PointInfo};
use reasons::Verdict;
use schedule::Settings;

// What a walk over a list has found so far; uncovered says that the previous point stood there without a certificate, which is a fact
// of its own.
#[derive(Clone, Copy)]
struct Walk {
    judging: Judging,
    uncovered: bool,
}

// The verdict over a list that can be read, and, a fact of its own, whether the previous point stood there without a certificate.
#[derive(Clone, Copy)]
pub struct JudgedList {
    pub verdict: Verdict,
    pub uncovered: bool,
}

const MOST_ENTRIES: usize = 65535;

// Whether an entry may stand after an indirect one, or after none.
fn is_in_order(indirect_seen: bool, aim: Option<AnchorStageRole>) -> bool
    ensures { result ≡ is_in_order indirect_seen aim }
{
    !indirect_seen || aim.is_some()
}

// Whether an id is the previous point's.
pub fn is_prev(p: &PointView, id: PointId) -> bool
    ensures { result ≡ is_id (prev_in (point_view_of p.now)) (point_id_of id) }
{
    judge_entries::is_own_before(p.id, id)
        && p.prev_digest
            .is_some_and(|digest| parts::same(digest, id.digest))
}

// Whether an entry leaves the previous point uncovered.
#[tactic(auto, unfolding(rules::specs::Mismatch::uncovers))]
fn uncovers(p: &PointView, entry: &Entry) -> bool
    ensures { result ≡ uncovers (prev_in (point_view_of p.now)) (entry_of entry.now) }
{
    !entry.certified && !entry.state.is_dropped() && is_prev(p, entry.state.id())
}

// Whether an entry is a dependency that gives nothing for sure, nor leaves the previous point uncovered.
fn is_quiet(quick: &Quick, x: &Listed) -> bool
    ensures { result ≡ true → (x.now.aim ≡ None) × Quiet quick.now x.now.entry }
{
    x.aim.is_none() && judge_step::is_quiet(quick, &x.entry)
}

// What an entry of a list gives: a direct one nothing more, once a dropped one has ended the direct list.
fn listed_gives(by: &By, info: &PointInfo, x: &Listed, ended: bool) -> Gives
    ensures { ListedGives (settings_of by.now.conf) by.now.required (viewed_of by.now.view info.now) ended x.now.aim
        (entry_of x.now.entry) (gives_of result) }
{
    match x.aim {
        None if ended => judge_step::NOTHING,
        None => judge_step::direct_gives(by, &x.entry),
        Some(role) => {
            judge_step::indirect_gives(by, role, info.anchor_link(role).through(), &x.entry)
        }
    }
}

fn with_listed(judging: Judging, is_target: bool, gives: &Gives) -> Judging
    ensures { judging_of result ≡ with_listed is_target (judging_of judging) (gives_of gives.now) }
{
    if is_target {
        judge_step::with_indirect(judging, gives)
    } else {
        judge_step::with_direct(judging, gives)
    }
}

// Reads and judges a list, entry by entry. What was found is touched only where an entry gives something. A `for` over an iterator of the
// entries, each an `Option` since it may not read, copies each once more: judging 13 peers takes 63,502 instructions in place of 62,001.
// By `let .. else`, since `?` copies the entry too: with it judging a list costs 7 % more. A By is made of the settings, of what is
// required and of the point once, here.
fn walk_list(conf: Settings, required: bool, point: &Point, list: &[u8]) -> Option<Walk>
    ensures { option_map walk_of result ≡ walk_with (settings_of conf) required (viewed (said point.now)) walk_start (read_list list.now) }
{
    let by = By {
        conf,
        required,
        view: PointView::from(point),
    };
    let quick = Quick::from(&by);
    let mut judging = judge_step::START;
    let mut uncovered = false;
    let mut indirect_seen = false;
    let mut left = MOST_ENTRIES;
    let mut rest = list;
    while !rest.is_empty() {
        if left == 0 {
            return None;
        }
        let Some(x) = judge_entries::read_entry(rest) else {
            return None;
        };
        if !is_in_order(indirect_seen, x.aim) {
            return None;
        }
        indirect_seen = x.aim.is_some();
        rest = &rest[x.size..];
        left -= 1;
        if is_quiet(&quick, &x) {
            continue;
        }
        uncovered |= uncovers(&by.view, &x.entry);
        let gives = listed_gives(&by, &point.info, &x, judging.ended);
        if judge_step::gives_nothing(&gives) {
            continue;
        }
        judging = with_listed(judging, indirect_seen, &gives);
    }
    Some(Walk { judging, uncovered })
}

// The verdict over a list that was walked: the indirect entries are asked where the direct ones gave no reason, and Invalid
// wins over a record. No From: neither type is of this crate.
#[tactic(auto, using(judge_step::proofs::Laws::later_told))]
pub fn verdict(judging: Judging) -> Verdict
    ensures { verdict_of result ≡ result_of (judging_of judging) }
{
    match (judging.direct.or(judging.indirect), judging.recorded) {
        (Some(reason), _) => Verdict::Invalid(reason),
        (None, Some(root)) => Verdict::TransInvalid(root),
        (None, None) => Verdict::Valid,
    }
}

// Reads and judges a list.
pub fn judge_list(conf: Settings, required: bool, point: &Point, list: &[u8]) -> Option<JudgedList>
    ensures { option_map judged_list_of result ≡ judged_with (settings_of conf) required (said point.now) (read_list list.now) }
{
    let walk = walk_list(conf, required, point, list)?;
    Some(JudgedList {
        verdict: verdict(walk.judging),
        uncovered: walk.uncovered,
    })
}
