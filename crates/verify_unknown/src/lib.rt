// The peers of a map that are not scheduled, written into the peer buffer.
#![tactic(auto)]

ghost use Rattle.std.specs.Prelude.{◌≡◌, true, ◌+◌, ◌*◌, ◌≤◌, length};
ghost use Rattle.parts.specs.Bytes.{put_at};
ghost use Rattle.map.specs.Rows.{peer_at, peers_of, rising};
ghost use Rattle.map.specs.Written.{peer_bytes};
ghost use Rattle.rules.specs.Unknown.{unknown_in};
ghost use Rattle.verify_unknown.specs.Code.{order_at};

use std::cmp::Ordering;

// How the scheduled peer at a position stands to the peer of a row; past the last it counts as greater.
#[tactic(auto, unfolding(crate::specs::Code::order_at))]
fn order_at(scheduled: &[u8], j: usize, rows: &[u8], i: usize) -> Ordering
    requires { 32 * i + 32 ≤ length rows.now }
    ensures { result ≡ order_at (peers_of 32 scheduled.now) j (peer_at rows.now i) }
{
    if j < map::count(scheduled, 32) {
        return map::compare_rows(scheduled, j, rows, i);
    }
    Ordering::Greater
}

// Writes the peers of rising rows that are not among the rising scheduled peers, and says how many they are. Both are
// walked once, side by side: with a `for` over the rows and `map::search` for each, verifying takes 42,463 instructions at
// 100 peers in place of 15,348.
#[tactic(auto, using(crate::proofs::Laws::walk_facts))]
pub fn unknown_peers(rows: &[u8], width: usize, scheduled: &[u8], out: &mut [u8]) -> usize
    requires le_width { 32 ≤ width }
    requires rows_value { rising (peers_of width rows.now) ≡ true }
    requires scheduled_value { rising (peers_of 32 scheduled.now) ≡ true }
    requires rows_in_bounds { 32 * length (peers_of width rows.now) ≤ length out.old }
    ensures count { result ≡ length (unknown_in (peers_of 32 scheduled.now) (peers_of width rows.now)) }
    ensures written { out.new ≡ put_at out.old 0
        (peer_bytes (unknown_in (peers_of 32 scheduled.now) (peers_of width rows.now))) }
{
    let n = map::count(rows, width);
    let mut i = 0;
    let mut j = 0;
    let mut found = 0;
    while i < n {
        match order_at(scheduled, j, rows, i) {
            Ordering::Less => j += 1,
            Ordering::Equal => {
                i += 1;
                j += 1;
            }
            Ordering::Greater => {
                let peer = map::peer_at(rows, i);
                write::put_id(out, 32 * found, peer);
                found += 1;
                i += 1;
            }
        }
    }
    found
}
