// SHA-256 (FIPS 180-4): a case names the bytes of a book by it.
const START: [u32; 8] = [
    0x6a09e667, 0xbb67ae85, 0x3c6ef372, 0xa54ff53a, 0x510e527f, 0x9b05688c, 0x1f83d9ab, 0x5be0cd19,
];

const ROUNDS: [u32; 64] = [
    0x428a2f98, 0x71374491, 0xb5c0fbcf, 0xe9b5dba5, 0x3956c25b, 0x59f111f1, 0x923f82a4, 0xab1c5ed5,
    0xd807aa98, 0x12835b01, 0x243185be, 0x550c7dc3, 0x72be5d74, 0x80deb1fe, 0x9bdc06a7, 0xc19bf174,
    0xe49b69c1, 0xefbe4786, 0x0fc19dc6, 0x240ca1cc, 0x2de92c6f, 0x4a7484aa, 0x5cb0a9dc, 0x76f988da,
    0x983e5152, 0xa831c66d, 0xb00327c8, 0xbf597fc7, 0xc6e00bf3, 0xd5a79147, 0x06ca6351, 0x14292967,
    0x27b70a85, 0x2e1b2138, 0x4d2c6dfc, 0x53380d13, 0x650a7354, 0x766a0abb, 0x81c2c92e, 0x92722c85,
    0xa2bfe8a1, 0xa81a664b, 0xc24b8b70, 0xc76c51a3, 0xd192e819, 0xd6990624, 0xf40e3585, 0x106aa070,
    0x19a4c116, 0x1e376c08, 0x2748774c, 0x34b0bcb5, 0x391c0cb3, 0x4ed8aa4a, 0x5b9cca4f, 0x682e6ff3,
    0x748f82ee, 0x78a5636f, 0x84c87814, 0x8cc70208, 0x90befffa, 0xa4506ceb, 0xbef9a3f7, 0xc67178f2,
];

fn turned_0(x: u32) -> u32 {
    x.rotate_right(7) ^ x.rotate_right(18) ^ x >> 3
}

fn turned_1(x: u32) -> u32 {
    x.rotate_right(17) ^ x.rotate_right(19) ^ x >> 10
}

fn turned_a(x: u32) -> u32 {
    x.rotate_right(2) ^ x.rotate_right(13) ^ x.rotate_right(22)
}

fn turned_e(x: u32) -> u32 {
    x.rotate_right(6) ^ x.rotate_right(11) ^ x.rotate_right(25)
}

fn chosen(e: u32, f: u32, g: u32) -> u32 {
    e & f ^ !e & g
}

fn majority(a: u32, b: u32, c: u32) -> u32 {
    a & b ^ a & c ^ b & c
}

// A block's own 16 words, and 0 for the others.
fn own_words(block: &[u8; 64]) -> [u32; 64] {
    let mut words = [0u32; 64];
    let (own, _) = block.as_chunks::<4>();
    for (word, four) in words.iter_mut().zip(own) {
        *word = u32::from_be_bytes(*four);
    }
    words
}

// The words of a block's rounds: its own, and then each from those before it.
fn round_words(block: &[u8; 64]) -> [u32; 64] {
    let mut words = own_words(block);
    for t in 16..64usize {
        words[t] = words[t - 16]
            .wrapping_add(turned_0(words[t - 15]))
            .wrapping_add(words[t - 7])
            .wrapping_add(turned_1(words[t - 2]));
    }
    words
}

fn round(state: [u32; 8], constant: u32, word: u32) -> [u32; 8] {
    let [a, b, c, d, e, f, g, h] = state;
    let first = h
        .wrapping_add(turned_e(e))
        .wrapping_add(chosen(e, f, g))
        .wrapping_add(constant)
        .wrapping_add(word);
    let second = turned_a(a).wrapping_add(majority(a, b, c));
    [
        first.wrapping_add(second),
        a,
        b,
        c,
        d.wrapping_add(first),
        e,
        f,
        g,
    ]
}

// The state after a block's rounds.
fn run_rounds(start: [u32; 8], block: &[u8; 64]) -> [u32; 8] {
    ROUNDS.iter().zip(round_words(block)).fold(
        start,
        |state, (constant, word)| round(state, *constant, word),
    )
}

// Word by word.
fn add_states(state: [u32; 8], other: [u32; 8]) -> [u32; 8] {
    let mut sum = state;
    for (word, more) in sum.iter_mut().zip(other) {
        *word = word.wrapping_add(more);
    }
    sum
}

// The state after more blocks.
fn add_blocks(start: [u32; 8], blocks: &[[u8; 64]]) -> [u32; 8] {
    blocks.iter().fold(
        start,
        |state, block| add_states(state, run_rounds(state, block)),
    )
}

pub fn digest(message: &[u8]) -> [u8; 32] {
    let (blocks, rest) = message.as_chunks::<64>();
    let mut last = [0u8; 128];
    last[..rest.len()].copy_from_slice(rest);
    last[rest.len()] = 0x80;
    let end = if rest.len() < 56 { 64 } else { 128 };
    let bits = (message.len() as u64).wrapping_mul(8);
    last[end - 8..end].copy_from_slice(&bits.to_be_bytes());
    let (last_blocks, _) = last[..end].as_chunks::<64>();
    let state = add_blocks(add_blocks(START, blocks), last_blocks);
    let mut digest = [0u8; 32];
    let (fours, _) = digest.as_chunks_mut::<4>();
    for (four, word) in fours.iter_mut().zip(state) {
        *four = word.to_be_bytes();
    }
    digest
}
