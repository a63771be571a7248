// The check value, the frame of an answer, and whether a block is whole.
#![tactic(auto)]

ghost use Rattle.std.specs.Prelude.{◌≡◌};
ghost use Rattle.wire.specs.Reversed.{reversed};
ghost use Rattle.wire.specs.Wire.{bits_in, check_from, put_frame_length, put_frame_output, put_length, put_output, whole};

// A byte enters the register, which is held in reverse order, so that its eight bits enter at once.
fn byte_in(q: u16, x: u8) -> u16
    ensures { result ≡ reversed 16 (bits_in 8 (reversed 16 q) x) }
{
    let z = q ^ u16::from(x);
    let t = z % 256;
    let odd = (t.count_ones() % 2) as u16;
    (z >> 8) ^ (t << 6) ^ (t << 7) ^ (odd * 0xC001)
}

// The check value of a slice that comes after bytes whose check value is `start` (0 where there are none).
pub fn check_value(start: u16, s: &[u8]) -> u16
    ensures { result ≡ check_from start s.now }
{
    s.iter()
        .fold(start.reverse_bits(), |q, x| byte_in(q, *x))
        .reverse_bits()
}

// The frame of up to 252 bytes at the front of an output that has room for it; its length. Else nothing, and 0: a count of the
// bytes put, and no Option of it, since `put` promises such a count (`put_length`) and hands this one on.
#[tactic(auto, unfolding(crate::specs::Wire::put_frame_length, crate::specs::Wire::put_frame_output, crate::specs::Wire::frame_fits))]
pub fn put_frame(out: &mut [u8], p: &[u8]) -> usize
    ensures value { result ≡ put_frame_length out.old p.now }
    ensures out_after { out.new ≡ put_frame_output out.old p.now }
{
    let n = p.len();
    if 252 < n || out.len() < n + 3 {
        return 0;
    }
    out[0] = (n + 3) as u8;
    out[1..n + 1].copy_from_slice(p);
    let check = check_value(0, &out[..n + 1]);
    out[n + 1..n + 3].copy_from_slice(&check.to_le_bytes());
    n + 3
}

// The frame of an answer of up to 32 bytes at the front of an output of at least 35; its length. Else nothing, and 0.
#[tactic(auto, unfolding(crate::specs::Wire::put_length, crate::specs::Wire::put_output, crate::specs::Wire::fits, crate::specs::Wire::put_frame_length, crate::specs::Wire::put_frame_output, crate::specs::Wire::frame_fits))]
pub fn put(out: &mut [u8], p: &[u8]) -> usize
    ensures value { result ≡ put_length out.old p.now }
    ensures out_after { out.new ≡ put_output out.old p.now }
{
    if 32 < p.len() || out.len() < 35 {
        return 0;
    }
    put_frame(out, p)
}

// Whether a block has 7 to 84 bytes, its count and its check value right.
#[tactic(auto, unfolding(crate::specs::Wire::whole, crate::specs::Wire::low_first_at, crate::specs::Wire::check_value))]
pub fn is_whole(b: &[u8]) -> bool
    ensures { result ≡ whole b.now }
{
    let n = b.len();
    (7..=84).contains(&n)
        && usize::from(b[0]) == n
        && u16::from_le_bytes([b[n - 2], b[n - 1]]) == check_value(0, &b[..n - 2])
}
