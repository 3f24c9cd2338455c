// The point's maps whose rounds are in the DAG, and which of their rows lack.
ghost use Rattle.std.specs.Prelude.{◌≡◌, true, false, ◌≤◌, length, replicate};
ghost use Rattle.map.specs.Rows.{peers_of, pairs_of, rising};
ghost use Rattle.point.specs.Code.{point_id_of};
ghost use Rattle.point.specs.Said.{said};
ghost use Rattle.rules.specs.Mismatch.{is_version};
ghost use Rattle.judge_mismatch.specs.Code.{maps_in, IsRow, unmarked};

use point::{Point, PointId};

// The most rows of a map. Each has its mark in fixed memory, since there is no heap.
const MOST: usize = 255;

// A map of the point: the round of its points, its rows, and which of these an entry stood for.
#[derive(Clone, Copy)]
pub struct MarkedMap<'a> {
    pub round: u32,
    pub rows: &'a [u8],
    pub seen: [bool; MOST],
    pub ghost rises: { rising (peers_of 64 rows.now) ≡ true },
    pub ghost few: { length (peers_of 64 rows.now) ≤ 255 },
}

impl<'a> MarkedMap<'a> {
    pub fn new(round: u32, rows: &'a [u8]) -> Self
        requires rises { rising (peers_of 64 rows.now) ≡ true }
        requires few { length (peers_of 64 rows.now) ≤ 255 }
        ensures round { result.round ≡ round }
        ensures rows { result.rows.now ≡ rows.now }
        ensures seen { result.seen ≡ replicate 255 false }
    {
        MarkedMap {
            round,
            rows,
            seen: [false; MOST],
        }
    }

    // The row that has this id.
    #[tactic(auto, using(point::proofs::Maps::map_facts, crate::proofs::Rows::row_facts))]
    pub fn row_of(&self, id: PointId) -> Option<usize>
        ensures { IsRow self.now.round (pairs_of self.now.rows.now) (point_id_of id) result }
    {
        if id.round != self.round {
            return None;
        }
        let i = map::search(self.rows, 64, id.author)? as usize;
        parts::same(map::digest_at(self.rows, i), id.digest).then_some(i)
    }

    // How many rows no entry stood for.
    pub fn lacking(&self) -> usize
        ensures same { result ≡ unmarked (length (peers_of 64 self.now.rows.now)) self.now.seen }
        ensures few { result ≤ 255 }
    {
        let seen = &self.seen[..map::count(self.rows, 64)];
        seen.iter().filter(|seen| !**seen).count()
    }
}

// How many of the point's maps have their round in the DAG: with presence 2 the includes alone.
pub fn maps_in_dag(presence: u8) -> usize
    ensures { result ≡ maps_in presence }
{
    if presence == 3 { 2 } else { 1 }
}

// Whether an id is a version of the author's point at the round before, of which the point references none.
#[tactic(auto, unfolding(rules::specs::Mismatch::is_version))]
pub fn is_version(point: &Point, id: PointId) -> bool
    ensures { result ≡ is_version (said point.now) (point_id_of id) }
{
    judge_entries::is_own_before(point.info.id, id) && point.prev_digest().is_none()
}
