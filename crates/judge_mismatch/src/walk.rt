// The walk over the direct entries, and number 8.
ghost use Rattle.std.specs.Prelude.{◌≡◌, ℕ, true, false, not, ◌&&◌, ◌||◌, List, [], ◌≤◌, ltb, eqb, length, Some, is_some};
ghost use Rattle.point.specs.Code.{point_id_of};
ghost use Rattle.point.specs.Said.{said};
ghost use Rattle.rules.specs.List.{Listed, read_list, directs, indirects};
ghost use Rattle.judge_mismatch.specs.Code.{listed, is_version_twice, maps_in};
ghost use Rattle.judge_mismatch.specs.Maps.{MapsMarked, DirectsFound, zeros};
ghost use Rattle.rules.specs.Mismatch.{is_version, mismatch};

use crate::entries::ReadableList;
use crate::maps::MarkedMap;
use crate::{maps, targets, versions};
use point::{Point, PointId};

// What the walk over the direct entries finds where none of them fails: how many were dropped, and where it ended.
#[derive(Clone, Copy)]
struct Walked {
    dropped: usize,
    end: usize,
}

// The includes, at r-1, and the witness, at r-2: no row is marked.
#[tactic(auto, using(point::proofs::Maps::map_facts))]
fn maps_of<'a>(point: &Point<'a>) -> [MarkedMap<'a>; 2]
    ensures { MapsMarked (said point.now) [] result }
{
    let round = point.info.id.round;
    [
        MarkedMap::new(parts::rounds_back(round, 1), point.includes()),
        MarkedMap::new(parts::rounds_back(round, 2), point.witness()),
    ]
}

// How many rows of the maps no entry stood for.
fn lacking(maps: &[MarkedMap]) -> usize
    requires { length maps.now ≤ 2 }
    ensures { result ≡ zeros maps.now }
{
    maps.iter().map(|map| map.lacking()).sum()
}

// Whether an id has its place: a row of a map, or as a version.
fn has_place(found: bool, point: &Point, id: PointId) -> bool
    ensures { result ≡ (found || is_version (said point.now) (point_id_of id)) }
{
    found || maps::is_version(point, id)
}

// Walks the direct entries, and for each the point's maps, up to the first mismatch. A row that an entry stands for is
// marked, so that a second entry for it is seen. No version stands twice. Document 01 names this form: a loop in a loop, left by a label.
// So the entries are asked for by `next`, since a `for` gives no value.
fn walk(point: &Point, list: &ReadableList, maps: &mut [MarkedMap]) -> Option<Walked>
    requires once { is_version_twice (said point.now) (directs (listed list.now.bytes.now)) ≡ false }
    requires maps_value { MapsMarked (said point.now) [] maps.old }
    ensures { (presence : ℕ) → length maps.old ≡ maps_in presence → DirectsFound presence (said point.now) list.now.bytes.now maps.new result }
{
    let mut dropped = 0;
    let mut left = list.entries();
    'entries: loop {
        let Some((at, head)) = left.next() else {
            let end = list.bytes.len();
            break 'entries Some(Walked { dropped, end });
        };
        if head.aim.is_some() {
            break 'entries Some(Walked { dropped, end: at });
        }
        let Some(id) = head.id else {
            dropped += 1;
            continue 'entries;
        };
        let mut found = false;
        for map in maps.iter_mut() {
            let Some(i) = map.row_of(id) else {
                continue;
            };
            if map.seen[i] {
                break 'entries None;
            }
            map.seen[i] = true;
            found = true;
        }
        if !has_place(found, point, id) {
            break 'entries None;
        }
    }
}

// Whether an entry of a target stands there though its round is not in the DAG; the direct entries end at a place.
fn has_absent_targets(presence: u8, list: &[u8], end: usize) -> bool
    ensures { result ≡ (not (eqb presence 3) && ltb end (length list.now)) }
{
    presence != 3 && end < list.len()
}

// Number 8 of a list that reads. The presence is a number: how many of the point's rounds are in the DAG, 0 to 3.
pub fn is_mismatch(presence: u8, point: &Point, list: &[u8]) -> bool
    requires { is_some (read_list list.now) ≡ true }
    ensures { (l : List Listed) → read_list list.now ≡ Some l →
        result ≡ mismatch presence (said point.now) (directs l) (indirects l) }
{
    let list = &ReadableList { bytes: list };
    if versions::stand_twice(point, list) {
        return true;
    }
    let mut maps = maps_of(point);
    let maps = &mut maps[..maps::maps_in_dag(presence)];
    let Some(walked) = walk(point, list, maps) else {
        return true;
    };
    walked.dropped < lacking(maps)
        || has_absent_targets(presence, list.bytes, walked.end)
        || !targets::are_targets(point.info, &list.from_place(walked.end))
}
