// Whether a version of the author's point at the round before stands twice among the direct entries of a list. Versions have no
// row to mark, so they are looked up in an index of their ids, block by block: those of a block among themselves, then all that
// stand after it.
ghost use Rattle.std.specs.Prelude.{◌≡◌, true, is_some, option_map};
ghost use Rattle.id_index.specs.Code.{count_of, IsEmpty, IsIndex};
ghost use Rattle.point.specs.Code.{point_id_of};
ghost use Rattle.point.specs.Said.{said};
ghost use Rattle.rules.specs.List.{read_entry, directs};
ghost use Rattle.judge_mismatch.specs.Code.{code_head_of, listed, field_at, own_id, HasRoom, NotedTo, Meets, BlockRead};
ghost use Rattle.judge_mismatch.specs.Code.{own_in, is_twice_in, is_version_twice};

use crate::entries::ReadableList;
use crate::head;
use crate::head::Head;
use id_index::Index;
use point::{Point, PointId};

// A block ends before its places pass what an index holds.
const FARTHEST: usize = 4000000000;

// Where the field of an entry's id stands: in state 1 after the root cause.
#[tactic(auto, using(crate::proofs::Heads::head_facts))]
fn id_field(s: &[u8]) -> usize
    requires { is_some (read_entry s.now) ≡ true }
    ensures { result ≡ field_at s.now }
{
    let flags = head::flags_at(s);
    if s[flags + 3] == 1 {
        return flags + 79;
    }
    flags + 7
}

// The id of an entry, if it is a version.
#[tactic(auto, unfolding(crate::specs::Code::is_own))]
fn own_id(own: PointId, head: Head) -> Option<PointId>
    ensures { option_map point_id_of result ≡ own_id (point_id_of own) (code_head_of head) }
{
    head.id.filter(|id| head.aim.is_none() && judge_entries::is_own_before(own, *id))
}

fn has_room(index: &Index, at: usize) -> bool
    ensures { HasRoom (count_of index.now) at result }
{
    at < FARTHEST && index.count() < parts::MOST_KEPT
}

// Notes the versions of a list, up to the first for which there is no room, and says where they end. The index is the caller's, as in
// book_read.
fn note(own: PointId, list: &ReadableList, index: &mut Index) -> usize
    requires { IsEmpty index.old }
    ensures { NotedTo (point_id_of own) list.now.bytes.now index.new result }
{
    for (at, head) in list.entries() {
        if own_id(own, head).is_none() {
            continue;
        }
        if !has_room(index, at) {
            return at;
        }
        index.add(at + id_field(&list.bytes[at..]));
    }
    list.bytes.len()
}

// Whether a version of what is left of a list is in the index.
fn meets(own: PointId, list: &[u8], left: &ReadableList, index: &Index) -> bool
    requires { IsIndex list.now index.now }
    ensures { Meets (point_id_of own) list.now left.now.bytes.now index.now result }
{
    for (_, head) in left.entries() {
        let Some(id) = own_id(own, head) else {
            continue;
        };
        if index.find(list, id).is_some() {
            return true;
        }
    }
    false
}

// What is left of a list after its first block, if no version of this stands twice.
fn read_block<'a>(own: PointId, list: &ReadableList<'a>) -> Option<ReadableList<'a>>
    ensures { BlockRead (point_id_of own) list.now.bytes.now (option_map (λ l. l.bytes.now) result) }
{
    let mut index = Index::new();
    let end = note(own, list, &mut index);
    if !index.build(list.bytes) {
        return None;
    }
    let left = list.from_place(end);
    (!meets(own, list.bytes, &left, &index)).then_some(left)
}

fn own_twice(own: PointId, list: &ReadableList) -> bool
    ensures { result ≡ is_twice_in (own_in (point_id_of own) list.now.bytes.now) }
{
    let mut left = *list;
    // A `while`: a block has as many versions as there is room for, so that only reading it says where the next begins.
    while !left.bytes.is_empty() {
        let Some(after) = read_block(own, &left) else {
            return true;
        };
        left = after;
    }
    false
}

// Whether a version stands twice, of which there are none where the point has a previous digest.
#[tactic(auto, unfolding(crate::specs::Code::is_version_twice))]
pub fn stand_twice(point: &Point, list: &ReadableList) -> bool
    ensures { result ≡ is_version_twice (said point.now) (directs (listed list.now.bytes.now)) }
{
    point.prev_digest().is_none() && own_twice(point.info.id, list)
}
