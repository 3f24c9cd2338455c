// Rising rows: a set of peers, 32 bytes a row, or a map of peers and digests, 64 bytes a row, all its peers first. They stand for
// the hash maps of the Rust. Contracts speak of the list of peers or of pairs that the bytes mean.
//
// Rows are asked for by their position: `as_chunks` would have each caller say where a row's peer and digest stand, which is said here
// alone, and an iterator of our own would be longer than the four loops that ask for each row in turn. The width stands beside the rows:
// a struct of both would be made for each call, and a const parameter would ask more of callers, who could not hand over a width that is
// known only as the program runs. Nor is there a struct of rows that rise and are at most 255 as well: it would be made for nearly each
// call of `search`, `get`, `verify_unknown` and `verify_peers`, which ask for these facts.
#![tactic(auto)]

ghost use Rattle.std.specs.Prelude.{◌≡◌, true, ◌+◌, ◌*◌, ◌≤◌, ◌<◌, length, get_or, option_map};
ghost use Rattle.parts.specs.Code.{number};
ghost use Rattle.parts.specs.Parts.{order};
ghost use Rattle.map.specs.Rows.{peer_at, peers_of, pairs_of, digests, rising, well_rowed, is_map, find, peers, get};
ghost use Rattle.map.specs.declared.Arrangement.TheVariants.{Pairs};

use parts::Id;
use std::cmp::Ordering;

// How a map lies in bytes: as pairs of a peer and a digest, or all peers first and then, in the same order, all digests. Maps are
// columns everywhere but in the converter.
#[derive(Clone, Copy)]
pub enum Arrangement {
    Pairs,
    Columns,
}

// How many whole rows there are.
#[tactic(auto, using(crate::proofs::Laws::peers_room))]
pub fn count(rows: &[u8], width: usize) -> usize
    requires { 32 ≤ width }
    ensures many { result ≡ length (peers_of width rows.now) }
    ensures room { 32 * result ≤ length rows.now }
{
    rows.len() / width
}

// The peer at a position: peers come first, in a set and in a map.
#[tactic(auto, unfolding(crate::specs::Rows::peer_at))]
pub fn peer_at(rows: &[u8], i: usize) -> Id
    requires { 32 * i + 32 ≤ length rows.now }
    ensures { number result ≡ peer_at rows.now i }
{
    parts::id_at(rows, 32 * i)
}

// The digest of the pair at a position of a map.
pub fn digest_at(map: &[u8], i: usize) -> Id
    requires { i < length (pairs_of map.now) }
    ensures { number result ≡ get_or (digests (pairs_of map.now)) i 0 }
{
    parts::id_at(map, 32 * (count(map, 64) + i))
}

// How the peer at a position stands to the peer at a position among others.
#[tactic(auto, unfolding(crate::specs::Rows::peer_at))]
pub fn compare_rows(rows: &[u8], i: usize, others: &[u8], j: usize) -> Ordering
    requires within { 32 * i + 32 ≤ length rows.now }
    requires other_within { 32 * j + 32 ≤ length others.now }
    ensures { result ≡ order (peer_at rows.now i) (peer_at others.now j) }
{
    parts::compare_at(rows, 32 * i, others, 32 * j)
}

// How the peer at a position stands to a peer.
#[tactic(auto, unfolding(crate::specs::Rows::peer_at))]
pub fn compare_row(rows: &[u8], i: usize, peer: Id) -> Ordering
    requires { 32 * i + 32 ≤ length rows.now }
    ensures { result ≡ order (peer_at rows.now i) (number peer) }
{
    parts::compare_to(rows, 32 * i, peer)
}

// Whether the peers rise strictly.
fn is_rising(rows: &[u8], width: usize) -> bool
    requires { 32 ≤ width }
    ensures { result ≡ rising (peers_of width rows.now) }
{
    (1..count(rows, width)).all(|j| compare_rows(rows, j - 1, rows, j).is_lt())
}

// Whether a field is whole rows whose peers rise strictly.
#[tactic(auto, unfolding(crate::specs::Rows::well_rowed))]
pub fn is_well_rowed(rows: &[u8], width: usize) -> bool
    requires { 32 ≤ width }
    ensures { result ≡ well_rowed width rows.now }
{
    rows.len() % width == 0 && is_rising(rows, width)
}

// Whether a map that lies as pairs is whole pairs whose peers rise strictly.
#[tactic(auto, unfolding(crate::specs::Rows::is_map))]
fn is_map_of_pairs(map: &[u8]) -> bool
    ensures { result ≡ is_map Pairs map.now }
{
    let n = map.len() / 64;
    map.len() % 64 == 0 && (1..n).all(|j| parts::compare_at(map, 64 * (j - 1), map, 64 * j).is_lt())
}

// Whether a field is a map in an arrangement. Inlined, so that nothing is asked of it where the arrangement is known.
#[inline(always)]
#[tactic(auto, using(crate::proofs::Laws::is_map_rows))]
pub fn is_map(map: &[u8], arrangement: Arrangement) -> bool
    ensures { result ≡ is_map arrangement map.now }
{
    match arrangement {
        Arrangement::Pairs => is_map_of_pairs(map),
        Arrangement::Columns => is_well_rowed(map, 64),
    }
}

// The position of a peer among rising rows, by halving. By hand, since `binary_search_by` wants a slice of elements, and a row has as
// many bytes as `width` says.
pub fn search(rows: &[u8], width: usize, peer: Id) -> Option<u16>
    requires le_width { (32 ≤ width) × (rising (peers_of width rows.now) ≡ true) }
    requires rows_len_bound { length (peers_of width rows.now) ≤ 255 }
    ensures { result ≡ find (peers_of width rows.now) (number peer) }
{
    let mut lo: u16 = 0;
    let mut hi = count(rows, width) as u16;
    while lo < hi {
        let mid = lo + (hi - lo) / 2;
        match compare_row(rows, mid as usize, peer) {
            Ordering::Equal => return Some(mid),
            Ordering::Less => lo = mid + 1,
            Ordering::Greater => hi = mid,
        }
    }
    None
}

// The digest beside a peer of a rising map.
pub fn get(map: &[u8], peer: Id) -> Option<Id>
    requires { (rising (peers (pairs_of map.now)) ≡ true) × (length (pairs_of map.now) ≤ 255) }
    ensures { option_map number result ≡ get (pairs_of map.now) (number peer) }
{
    let i = search(map, 64, peer)?;
    Some(digest_at(map, i as usize))
}
