// Prints the vectors of FIPS 180-4 and, for every length from 0 to 200, that the digest of a message of that length is right:
// a line for each sixteen lengths, the digest of their digests. Run and compared with crates/vectors/stdout.
#![tactic(auto)]

use std::io;

// A digest in hexadecimal, and the end of the line.
fn show(rt: &impl Print, d: [u8; 32]) -> io::Result<()> {
    for b in d {
        print!(rt; "{b:02x}")?;
    }
    println!(rt;)
}

// A message of which no two bytes near each other are equal.
fn message(n: usize) -> [u8; 256] {
    std::array::from_fn(|i| ((i * 7 + n % 256 * 13) % 256) as u8)
}

// The digest of the digests of the sixteen lengths from n on, up to 200; zeros stand for those of the lengths beyond.
fn sixteen(n: usize) -> [u8; 32] {
    let mut row = [0; 512];
    for (k, place) in row.chunks_exact_mut(32).enumerate() {
        let len = n % 256 + k;
        if len <= 200 {
            place.copy_from_slice(&digest::digest(&message(len)[..len]));
        }
    }
    digest::digest(&row)
}

// A million letters a. In a function of its own: with the array in `main` the check of `main` runs out of stack.
fn letters() -> [u8; 1000000] {
    [b'a'; 1000000]
}

fn main(rt: HostRuntime) -> io::Result<()> {
    let messages: [&[u8]; 4] = [
        b"",
        b"abc",
        b"abcdbcdecdefdefgefghfghighijhijkijkljklmklmnlmnomnopnopq",
        b"abcdefghbcdefghicdefghijdefghijkefghijklfghijklmghijklmnhijklmnoijklmnopjklmnopqklmnopqrlmnopqrsmnopqrstnopqrstu",
    ];
    for m in messages {
        show(&rt, digest::digest(m))?;
    }
    show(&rt, digest::digest(&letters()))?;
    for k in 0..13 {
        show(&rt, sixteen(16 * k))?;
    }
    Ok(())
}
