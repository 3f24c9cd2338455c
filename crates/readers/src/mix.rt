// One number for a row of numbers, in which every one of them and their order show.
use parts::Id;
use point::PointId;

const FACTOR: u64 = 2654435761;

// The sum times FACTOR plus the number, in 64 bits.
pub fn mix(sum: u64, x: u64) -> u64 {
    sum.wrapping_mul(FACTOR).wrapping_add(x)
}

pub fn mix_flag(sum: u64, flag: bool) -> u64 {
    mix(sum, u64::from(flag))
}

pub fn mix_id(sum: u64, id: Id) -> u64 {
    mix(mix(mix(mix(sum, id.a), id.b), id.c), id.d)
}

pub fn mix_point_id(sum: u64, id: PointId) -> u64 {
    mix_id(mix_id(mix(sum, u64::from(id.round)), id.digest), id.author)
}

// Whether a value is there, and it.
pub fn mix_option<T, F: FnOnce(u64, T) -> u64>(sum: u64, value: Option<T>, mix_some: F) -> u64
    requires { F.IsAlwaysCallable mix_some }
{
    match value {
        Some(x) => mix_some(mix(sum, 1), x),
        None => mix(sum, 0),
    }
}

// How many peers a set has, and each.
pub fn sum_of_set(rows: &[u8]) -> u64 {
    let n = map::count(rows, 32);
    let mut sum = mix(0, n as u64);
    for i in 0..n {
        sum = mix_id(sum, map::peer_at(rows, i));
    }
    sum
}

// How many pairs a map has, and each; no sum_of_set, since a set has peers alone, and a map a digest with each.
#[tactic(auto, using(point::proofs::Maps::map_facts))]
pub fn sum_of_map(rows: &[u8]) -> u64 {
    let n = map::count(rows, 64);
    let mut sum = mix(0, n as u64);
    for i in 0..n {
        let peer = mix_id(sum, map::peer_at(rows, i));
        sum = mix_id(peer, map::digest_at(rows, i));
    }
    sum
}
