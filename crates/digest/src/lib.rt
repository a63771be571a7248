// SHA-256 by FIPS 180-4. A function has the name of the definition in specs/Sha256.antt that it computes, where there is one.
#![tactic(auto)]

ghost use Rattle.std.specs.Prelude.{◌≡◌, ◌+◌, ◌*◌, ◌/◌, ◌<◌, length, slice_index};
ghost use Rattle.digest.specs.Sha256.{ch, maj, Σ₀, Σ₁, σ₀, σ₁, zeros, pad, words, block, H0 as h0, ◌⊞◌, schedule, round, rounds, plus, compress, output, sha256};

mod constants;

use constants::{H0, K};

// Eight words: the value between blocks, and the working variables of the rounds.
#[derive(Clone, Copy)]
struct Words {
    a: u32,
    b: u32,
    c: u32,
    d: u32,
    e: u32,
    f: u32,
    g: u32,
    h: u32,
}

// 4.1.2: the six functions. A generic one over the three rotations would be no plainer than the standard's four lines.
fn ch(x: u32, y: u32, z: u32) -> u32
    ensures { result ≡ ch x y z }
{
    (x & y) ^ (!x & z)
}

fn maj(x: u32, y: u32, z: u32) -> u32
    ensures { result ≡ maj x y z }
{
    (x & y) ^ (x & z) ^ (y & z)
}

fn big_sigma0(x: u32) -> u32
    ensures { result ≡ Σ₀ x }
{
    x.rotate_right(2) ^ x.rotate_right(13) ^ x.rotate_right(22)
}

fn big_sigma1(x: u32) -> u32
    ensures { result ≡ Σ₁ x }
{
    x.rotate_right(6) ^ x.rotate_right(11) ^ x.rotate_right(25)
}

fn small_sigma0(x: u32) -> u32
    ensures { result ≡ σ₀ x }
{
    x.rotate_right(7) ^ x.rotate_right(18) ^ (x >> 3)
}

fn small_sigma1(x: u32) -> u32
    ensures { result ≡ σ₁ x }
{
    x.rotate_right(17) ^ x.rotate_right(19) ^ (x >> 10)
}

// 5.1.1: the byte i of the padded message, before its count of bits.
#[tactic(auto, using(crate::proofs::PaddingLaws::bytes_by_place))]
fn byte_at(m: &[u8], i: usize) -> u8
    requires { i < length m.now + 1 + zeros (length m.now) }
    ensures { result ≡ slice_index (pad m.now) i }
{
    if i < m.len() {
        m[i]
    } else if i == m.len() {
        0x80
    } else {
        0
    }
}

// 5.2.1: the word j of the padded message, which has (n + 8) / 64 + 1 blocks. Only the word with the byte 0x80 is put together
// from single bytes.
#[tactic(auto, using(crate::proofs::PaddingLaws::words_by_place))]
fn word_at(m: &[u8], j: usize) -> u32
    requires { j < 16 * ((length m.now + 8) / 64 + 1) }
    ensures { result ≡ slice_index (words (pad m.now)) j }
{
    let n = m.len();
    let i = 4 * j;
    if i + 3 < n {
        return u32::from_be_bytes([m[i], m[i + 1], m[i + 2], m[i + 3]]);
    }
    if i <= n {
        return u32::from_be_bytes(std::array::from_fn(|k| byte_at(m, i + k)));
    }
    let end = (n + 8) / 64 * 64 + 56;
    if i < end {
        return 0;
    }
    // the count of bits in two words: as a whole, 8 * n could wrap
    if i == end {
        return (n / 0x20000000 % 0x100000000) as u32;
    }
    (n % 0x20000000 * 8) as u32
}

// 5.2.1: the sixteen words of the block i of the padded message.
fn block(m: &[u8], i: usize) -> [u32; 16]
    requires { i < (length m.now + 8) / 64 + 1 }
    ensures { result ≡ block (words (pad m.now)) i }
{
    std::array::from_fn(|j| word_at(m, 16 * i + j))
}

// 5.3.3: the value to start from.
#[tactic(auto, unfolding(crate::specs::Sha256::H0))]
fn start() -> Words
    ensures { result ≡ h0 }
{
    let [a, b, c, d, e, f, g, h] = H0;
    Words {
        a,
        b,
        c,
        d,
        e,
        f,
        g,
        h,
    }
}

// 6.2.2 step 1: a word of the schedule, from those 16, 15, 7 and 2 places before it. Read in this order they compile to faster
// code than in the order of the sum.
fn next(w16: u32, w15: u32, w7: u32, w2: u32) -> u32
    ensures { result ≡ σ₁ w2 ⊞ w7 ⊞ σ₀ w15 ⊞ w16 }
{
    small_sigma1(w2)
        .wrapping_add(w7)
        .wrapping_add(small_sigma0(w15))
        .wrapping_add(w16)
}

// 6.2.2 step 1: the schedule.
fn schedule(b: [u32; 16]) -> [u32; 64]
    ensures { result ≡ schedule b }
{
    let mut w = [0; 64];
    // a loop, for with copy_from_slice the digest was 5 percent slower
    for t in 0..16 {
        w[t] = b[t];
    }
    for t in 16..64 {
        w[t] = next(w[t - 16], w[t - 15], w[t - 7], w[t - 2]);
    }
    w
}

// 6.2.2 step 3: one round, with its constant and its word of the schedule.
#[tactic(auto, unfolding(crate::specs::Sha256::round))]
fn round(s: Words, k: u32, w: u32) -> Words
    ensures { result ≡ round s k w }
{
    let t1 = s
        .h
        .wrapping_add(big_sigma1(s.e))
        .wrapping_add(ch(s.e, s.f, s.g))
        .wrapping_add(k)
        .wrapping_add(w);
    let t2 = big_sigma0(s.a).wrapping_add(maj(s.a, s.b, s.c));
    Words {
        a: t1.wrapping_add(t2),
        b: s.a,
        c: s.b,
        d: s.c,
        e: s.d.wrapping_add(t1),
        f: s.e,
        g: s.f,
        h: s.g,
    }
}

// Eight rounds in a row, so that the compiled code need not move the eight variables along: in a loop over single rounds the digest
// was 30 percent slower.
#[tactic(auto, using(crate::proofs::RoundLaws::eight_law))]
fn eight_rounds(s: Words, k: &[u32], w: &[u32]) -> Words
    requires { (length k.now ≡ 8) × (length w.now ≡ 8) }
    ensures { result ≡ rounds k.now w.now s }
{
    let s = round(s, k[0], w[0]);
    let s = round(s, k[1], w[1]);
    let s = round(s, k[2], w[2]);
    let s = round(s, k[3], w[3]);
    let s = round(s, k[4], w[4]);
    let s = round(s, k[5], w[5]);
    let s = round(s, k[6], w[6]);
    round(s, k[7], w[7])
}

// 6.2.2 step 3: all rounds, eight at a time.
fn rounds(v: Words, k: &[u32; 64], w: &[u32; 64]) -> Words
    ensures { result ≡ rounds k.now w.now v }
{
    let mut s = v;
    for (k, w) in k.chunks_exact(8).zip(w.chunks_exact(8)) {
        s = eight_rounds(s, k, w);
    }
    s
}

// 6.2.2 step 4: the sums, word by word.
#[tactic(auto, unfolding(crate::specs::Sha256::plus))]
fn plus(v: Words, s: Words) -> Words
    ensures { result ≡ plus v s }
{
    Words {
        a: s.a.wrapping_add(v.a),
        b: s.b.wrapping_add(v.b),
        c: s.c.wrapping_add(v.c),
        d: s.d.wrapping_add(v.d),
        e: s.e.wrapping_add(v.e),
        f: s.f.wrapping_add(v.f),
        g: s.g.wrapping_add(v.g),
        h: s.h.wrapping_add(v.h),
    }
}

// 6.2.2: the value carried on over one block.
#[tactic(auto, unfolding(crate::specs::Sha256::compress, crate::specs::Sha256::K))]
fn compress(v: Words, b: [u32; 16]) -> Words
    ensures { result ≡ compress v b }
{
    let w = schedule(b);
    plus(v, rounds(v, &K, &w))
}

// 6.2.2: the digest, the eight words' bytes.
fn output(v: Words) -> [u8; 32]
    ensures { result ≡ output v }
{
    let mut out = [0; 32];
    out[..4].copy_from_slice(&v.a.to_be_bytes());
    out[4..8].copy_from_slice(&v.b.to_be_bytes());
    out[8..12].copy_from_slice(&v.c.to_be_bytes());
    out[12..16].copy_from_slice(&v.d.to_be_bytes());
    out[16..20].copy_from_slice(&v.e.to_be_bytes());
    out[20..24].copy_from_slice(&v.f.to_be_bytes());
    out[24..28].copy_from_slice(&v.g.to_be_bytes());
    out[28..].copy_from_slice(&v.h.to_be_bytes());
    out
}

// The SHA-256 digest of a message of any length.
#[tactic(auto, using(crate::proofs::DigestLaws::hash_more, crate::proofs::DigestLaws::hash_done), unfolding(crate::specs::Sha256::hash))]
pub fn digest(m: &[u8]) -> [u8; 32]
    ensures { result ≡ sha256 m.now }
{
    let blocks = (m.len() + 8) / 64 + 1;
    let mut v = start();
    for i in 0..blocks {
        v = compress(v, block(m, i));
    }
    output(v)
}
