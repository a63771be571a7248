// Rows of bytes: parts of a slice, a slot's bytes, comparing, XOR.
#![tactic(auto)]

ghost use Rattle.std.specs.Prelude.{◌≡◌};
ghost use Rattle.rules.specs.Words.{equal, xor_row};
ghost use Rattle.rules.specs.State.{slot_bytes};
ghost use Rattle.rows.specs.Row.{fitting, row};

use rules::{Device, Slot};

// How many of n bytes stand in a zone of `len` bytes from a position on.
#[tactic(auto, using(crate::proofs::Row::fitting_min))]
pub fn room(len: usize, at: usize, n: usize) -> usize
    ensures { result ≡ fitting len at n }
{
    n.min(len.saturating_sub(at))
}

// The n bytes of a slice from a position on, as many as there are, filled up with zeros to 32; a position beside a slice, since its
// promise has it so (`row`).
pub fn row_of(s: &[u8], at: usize, n: usize) -> [u8; 32]
    ensures { result ≡ row s.now at n }
{
    let count = room(s.len(), at, n).min(32);
    let mut b = [0u8; 32];
    // tried copy_from_slice: slower, a read or a write of a slot takes some 6 % longer
    for i in 0..count {
        b[i] = s[at + i];
    }
    b
}

#[tactic(auto, using(crate::proofs::Row::row_whole), unfolding(rules::specs::State::slot_bytes))]
pub fn slot_bytes(d: Device, k: Slot) -> [u8; 32]
    ensures { result ≡ slot_bytes d k }
{
    let at = 32 * ((k.0 % 16) as usize);
    row_of(&d.data, at, 32)
}

// A function, and no `==` at each call, since docs/PROMISES.md names its promise.
#[tactic(auto, using(crate::proofs::Row::equal_lists))]
pub fn equal_rows(a: &[u8], b: &[u8]) -> bool
    ensures { result ≡ equal a.now b.now }
{
    a == b
}

// Its twin is write's `and_row`: a function over the operation would be no plainer than the line that each is.
pub fn xor_row(a: [u8; 32], b: [u8; 32]) -> [u8; 32]
    ensures { result ≡ xor_row a b }
{
    std::array::from_fn(|i| a[i] ^ b[i])
}
