// What is asked of an id, and of the field in which one stands.
ghost use Rattle.std.specs.Prelude.{◌≡◌, ◌+◌, ◌≤◌, ◌<◌, length};
ghost use Rattle.parts.specs.Limits.{most_kept};
ghost use Rattle.point.specs.Point.{same_id};
ghost use Rattle.point.specs.Code.{point_id_of};
ghost use Rattle.id_index.specs.Code.{field_id, bucket_of, Compared};

use point::PointId;
use std::cmp::Ordering;

#[tactic(auto, using(crate::proofs::Laws::last_word))]
pub fn bucket(id: PointId) -> usize
    ensures value { result ≡ bucket_of (point_id_of id) }
    ensures upper_bound { result < most_kept }
{
    id.digest.d as usize % parts::MOST_KEPT
}

// Whether the field at a place has an id.
#[tactic(auto, using(point::proofs::Ids::same_words), unfolding(point::specs::Point::same_id))]
pub fn has_id(s: &[u8], place: usize, id: PointId) -> bool
    requires { place + 71 ≤ length s.now }
    ensures { result ≡ same_id (field_id s.now place) (point_id_of id) }
{
    point::point_id_at(s, place + 3) == id
}

// The order of the id of the field at a place and an id: by digest, author and round. Not a derived one, which would ask the round
// first.
#[tactic(auto, unfolding(parts::specs::Parts::order, point::specs::Reading::point_id_at, point::specs::Point::same_id))]
pub fn compare(s: &[u8], place: usize, id: PointId) -> Ordering
    requires { place + 71 ≤ length s.now }
    ensures { Compared (field_id s.now place) (point_id_of id) result }
{
    parts::compare_to(s, place + 3 + 4, id.digest)
        .then_with(|| parts::compare_to(s, place + 3 + 36, id.author))
        .then_with(|| parts::u32_at(s, place + 3).cmp(&id.round))
}
