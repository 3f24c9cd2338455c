// Ids, numbers read at a place of a slice, and PeerCount: the ports of parts.rs and peer_count.rs.
#![tactic(auto)]

ghost use Rattle.std.specs.Prelude.{◌≡◌, ◌&&◌, ◌+◌, ◌-◌, ◌≤◌, ◌<◌, eqb, leb, length};
ghost use Rattle.std.specs.Result.{result_ok};
ghost use Rattle.parts.specs.Bytes.{bytes_at, little_at, big_at, id_at};
ghost use Rattle.parts.specs.Code.{number, peer_count_of};
ghost use Rattle.parts.specs.Limits.{first_round, last_round};
ghost use Rattle.parts.specs.Parts.{order, peer_count, full, majority, majority_of_others};

use std::cmp::Ordering;

// A peer or a digest: its 32 bytes as four numbers, the first byte highest, so that comparing the
// numbers in turn compares the byte strings.
#[derive(Clone, Copy, PartialEq, Eq, PartialOrd, Ord)]
pub struct Id {
    pub a: u64,
    pub b: u64,
    pub c: u64,
    pub d: u64,
}

// The id of four zeros, where there is none.
pub const NO_ID: Id = Id {
    a: 0,
    b: 0,
    c: 0,
    d: 0,
};

// WAVE_ROUNDS of wave.rs.
pub const WAVE_ROUNDS: u32 = 4;

// The limits of document 01, as specs/Limits.antt has them.
pub const FIRST_ROUND: u32 = 4;

pub const LAST_ROUND: u32 = 2147483647;

pub const PEERS_ROOM: usize = 8160;

pub const SETTINGS_LENGTH: usize = 47;

pub const ENTRIES_START: usize = SETTINGS_LENGTH;

pub const TAG33_LENGTH: usize = 108;

pub const MOST_KEPT: usize = 4096;

pub const LONGEST_BOOK: usize = 16777216;

// The bytes at a place, as many as the array has. Each of the four readers of a number is one call of a conversion of std, which
// has no trait of all sizes.
fn bytes_at<const N: usize>(s: &[u8], at: usize) -> [u8; N]
    requires { at + N ≤ length s.now }
    ensures { result ≡ bytes_at N s.now at }
{
    s[at..at + N].try_into().unwrap()
}

// The little-endian number of two bytes at a place.
#[tactic(auto, using(crate::proofs::Laws::read_little))]
pub fn u16_at(s: &[u8], at: usize) -> u16
    requires { at + 2 ≤ length s.now }
    ensures { result ≡ little_at 2 s.now at }
{
    u16::from_le_bytes(bytes_at(s, at))
}

// The little-endian number of four bytes at a place.
#[tactic(auto, using(crate::proofs::Laws::read_little))]
pub fn u32_at(s: &[u8], at: usize) -> u32
    requires { at + 4 ≤ length s.now }
    ensures { result ≡ little_at 4 s.now at }
{
    u32::from_le_bytes(bytes_at(s, at))
}

// The little-endian number of eight bytes at a place.
#[tactic(auto, using(crate::proofs::Laws::read_little))]
pub fn u64_at(s: &[u8], at: usize) -> u64
    requires { at + 8 ≤ length s.now }
    ensures { result ≡ little_at 8 s.now at }
{
    u64::from_le_bytes(bytes_at(s, at))
}

// The number of eight bytes at a place, the first highest.
#[tactic(auto, using(crate::proofs::Laws::read_big))]
pub fn big64_at(s: &[u8], at: usize) -> u64
    requires { at + 8 ≤ length s.now }
    ensures { result ≡ big_at 8 s.now at }
{
    u64::from_be_bytes(bytes_at(s, at))
}

// The id whose 32 bytes stand at a place.
#[tactic(auto, using(crate::proofs::Laws::big_words), unfolding(crate::specs::Code::number))]
pub fn id_at(s: &[u8], at: usize) -> Id
    requires { at + 32 ≤ length s.now }
    ensures { number result ≡ id_at s.now at }
{
    Id {
        a: big64_at(s, at),
        b: big64_at(s, at + 8),
        c: big64_at(s, at + 16),
        d: big64_at(s, at + 24),
    }
}

// Whether two ids are the same, as the definitions say it, of numbers: at each caller `==` would want the proof that its words are theirs.
#[tactic(auto, unfolding(crate::specs::Code::number))]
pub fn same(x: Id, y: Id) -> bool
    ensures { result ≡ eqb (number x) (number y) }
{
    x == y
}

// The order of two ids, which is that of their byte strings. By hand, since `x.cmp(&y)`, which is proved as well, is slower: with it
// a walk over rising rows takes 11 instructions a row and not 9, and a search among 255 rows 185 and not 160.
#[tactic(auto, unfolding(crate::specs::Code::number, crate::specs::Parts::order, crate::specs::Parts::order_then))]
pub fn compare(x: Id, y: Id) -> Ordering
    ensures { result ≡ order (number x) (number y) }
{
    if x.a < y.a {
        return Ordering::Less;
    }
    if y.a < x.a {
        return Ordering::Greater;
    }
    if x.b != y.b {
        return x.b.cmp(&y.b);
    }
    if x.c != y.c {
        return x.c.cmp(&y.c);
    }
    x.d.cmp(&y.d)
}

// The order of the ids that stand at two places, by `compare`: where their first words differ, these settle it.
pub fn compare_at(s: &[u8], at: usize, t: &[u8], from: usize) -> Ordering
    requires { (at + 32 ≤ length s.now) × (from + 32 ≤ length t.now) }
    ensures { result ≡ order (id_at s.now at) (id_at t.now from) }
{
    compare(id_at(s, at), id_at(t, from))
}

// The order of the id that stands at a place and an id, by `compare`.
pub fn compare_to(s: &[u8], at: usize, id: Id) -> Ordering
    requires { at + 32 ≤ length s.now }
    ensures { result ≡ order (id_at s.now at) (number id) }
{
    compare(id_at(s, at), id)
}

// F of a count of peers 3F+1.
#[derive(Clone, Copy, PartialEq, Eq)]
pub struct PeerCount(pub u8);

// The error of too few peers for one of them to fail.
#[derive(Clone, Copy, PartialEq, Eq)]
pub struct NotEnoughPeers;

impl TryFrom<u8> for PeerCount {
    type Error = NotEnoughPeers;

    #[tactic(auto, unfolding(crate::specs::Parts::peer_count))]
    fn try_from(total_peers: u8) -> Result<PeerCount, NotEnoughPeers>
        ensures { peer_count_of (result_ok result) ≡ peer_count total_peers }
    {
        if total_peers < 3 {
            return Err(NotEnoughPeers);
        }
        let total = total_peers as u16;
        Ok(PeerCount(((total + 1) / 3) as u8))
    }
}

impl PeerCount {
    pub const GENESIS: PeerCount = PeerCount(0);

    pub fn full(self) -> usize
        ensures { result ≡ full self.0 }
    {
        self.0 as usize * 3 + 1
    }

    pub fn majority(self) -> usize
        ensures { result ≡ majority self.0 }
    {
        self.0 as usize * 2 + 1
    }

    pub fn majority_of_others(self) -> usize
        ensures { result ≡ majority_of_others self.0 }
    {
        self.0 as usize * 2
    }
}

// Whether a round lies in the domain.
pub fn is_round(round: u32) -> bool
    ensures { result ≡ (leb first_round round && leb round last_round) }
{
    (FIRST_ROUND..=LAST_ROUND).contains(&round)
}

// The round n rounds back, 0 at the lowest: `Sub` of rounds in parts.rs, under a name, since it isn't the `-` of numbers.
pub fn rounds_back(round: u32, rounds: u32) -> u32
    ensures { result ≡ round - rounds }
{
    round.saturating_sub(rounds)
}
