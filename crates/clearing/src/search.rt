// The search of a list for its recording points, after the whole list was judged.
ghost use Rattle.std.specs.Prelude.{◌≡◌, true, ◌||◌, [], is_some, option_map};
ghost use Rattle.point.specs.Point as point;
ghost use Rattle.point.specs.Code.{point_id_of};
ghost use Rattle.schedule.specs.Code.{settings_of};
ghost use Rattle.rules.specs.DagPoint.{entry_id, point_view};
ghost use Rattle.rules.specs.List.{read_list};
ghost use Rattle.rules.specs.Validate.{taken, record_of};
ghost use Rattle.rules.specs.Clearing.{brought, recording, by_one};
ghost use Rattle.judge_entries.specs.Entry.{entry_of};
ghost use Rattle.judge_valid.specs.Code.{point_view_of};
ghost use Rattle.judge_mismatch.specs.Code.{listed};
ghost use Rattle.clearing.specs.Code.{clearing_in, is_dependency, is_other, by_one_after};

use crate::Clearing;
use judge_entries::{Entry, Listed};
use judge_reason::Taken;
use judge_valid::{By, PointView};
use point::PointId;

// Whether a direct entry of a point is taken as a dependency: a version brings nothing, nor does one that is left aside.
#[tactic(auto, using(crate::proofs::Laws::taken_told))]
fn is_dependency(p: &PointView, id: PointId) -> bool
    ensures { result ≡ is_dependency (taken (point_view_of p.now) (point_id_of id)) }
{
    matches!(judge_reason::how_taken(p, id), Taken::AsDependency { .. })
}

// Whether an entry may record something: an indirect one, or a direct one that is a dependency.
fn is_given(p: &PointView, x: &Listed) -> bool
    ensures { result ≡ (is_some x.now.aim || is_dependency (taken (point_view_of p.now) (entry_id (entry_of x.now.entry).state))) }
{
    x.aim.is_some() || is_dependency(p, x.entry.state.id())
}

// Whether a dependency records something. Not what it records: that alone would name what it was reached through.
fn records(by: &By, entry: &Entry) -> bool
    ensures { (t : point.Through) → result
        ≡ is_some (record_of (settings_of by.now.conf) by.now.view.id.round entry.now.certified t (entry_of entry.now).state) }
{
    let round = by.view.id.round;
    let through = judge_dependency::direct_through(round, entry.state.id());
    judge_dependency::record_of(&by.conf, round, entry.certified, through, &entry.state).is_some()
}

// Whether an entry brings something to the record.
fn brings(by: &By, x: &Listed) -> bool
    ensures { (p : point.PointInfo) → point_view_of by.now.view ≡ point_view p →
        result ≡ is_some (brought (settings_of by.now.conf) by.now.required p x.now.aim (entry_of x.now.entry)) }
{
    is_given(&by.view, x) && records(by, &x.entry)
}

// Whether a point is another than the one that was found first, if any was.
fn is_other(first: Option<PointId>, id: PointId) -> bool
    ensures { result ≡ is_other (option_map point_id_of first) (point_id_of id) }
{
    first.is_some_and(|first| !point::is_same_id(id, first))
}

// What is answered where no recording point is left.
#[tactic(auto, unfolding(rules::specs::Clearing::by_one, rules::specs::Clearing::all_same))]
fn told(first: Option<PointId>) -> Clearing
    ensures { clearing_in result ≡ by_one_after (option_map point_id_of first) [] }
{
    first.map_or(Clearing::NoSingleMark, Clearing::ClearedBy)
}

// The point that all recording entries of a list are of. "Only the search after it may end early, at a recording point with another id
// than the first".
pub fn search(by: &By, list: &[u8]) -> Clearing
    requires { is_some (read_list list.now) ≡ true }
    ensures { (p : point.PointInfo) → point_view_of by.now.view ≡ point_view p →
        clearing_in result ≡ by_one (recording (settings_of by.now.conf) by.now.required p (listed list.now)) }
{
    let mut first = None;
    let mut left = list;
    while !left.is_empty() {
        let x = judge_entries::known_entry(left);
        left = &left[x.size..];
        if !brings(by, &x) {
            continue;
        }
        let id = x.entry.state.id();
        if is_other(first, id) {
            return Clearing::NoSingleMark;
        }
        first = Some(id);
    }
    told(first)
}
