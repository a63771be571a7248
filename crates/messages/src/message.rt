// A message as it grows, a field at a time. No message is longer than 96 bytes.
// Clauses named `long` follow from those named `fields`: they stand for the proofs that the next field fits.
ghost use Rattle.std.specs.Prelude.{◌≡◌, ℕ, ◌+◌, ◌≤◌, List, [], ◌++◌, length, take, if◌then◌else◌};
ghost use Rattle.digest.specs.Sha256.{sha256};
ghost use Rattle.rules.specs.Words.{zeros};

use std::marker::Model;

// An array and a length, since memory is fixed and there is no heap; clauses see the first `len` of the bytes.
// Not arrayvec's `ArrayVec<u8, 96>`: its `try_extend_from_slice` refuses at run time, where `add` is proved to fit.
#[derive(Drop)]
pub(crate) struct Message {
    bytes: [u8; 96],
    len: usize,
}

impl Model for Message {
    ghost Value = { List ℕ };

    ghost view = { λ m. take m.len m.bytes };

    ghost invariant = { λ m. m.len ≤ 96 };
}

impl Message {
    pub(crate) fn new() -> Self
        ensures fields { result ≡ [] }
        ensures long { length result ≡ 0 }
    {
        Message {
            bytes: [0; 96],
            len: 0,
        }
    }

    // A field behind what is there.
    pub(crate) fn add(&mut self, s: &[u8])
        requires { length self.old + length s.now ≤ 96 }
        ensures fields { self.new ≡ self.old ++ s.now }
        ensures long { length self.new ≡ length self.old + length s.now }
    {
        let end = self.len + s.len();
        self.bytes[self.len..end].copy_from_slice(s);
        self.len = end;
    }

    // So many zeros.
    pub(crate) fn add_zeros(&mut self, n: usize)
        requires { length self.old + n ≤ 96 }
        ensures fields { self.new ≡ self.old ++ zeros n }
        ensures long { length self.new ≡ length self.old + n }
    {
        let end = self.len + n;
        self.bytes[self.len..end].fill(0);
        self.len = end;
    }

    // The field where it is included, as many zeros where it is not.
    pub(crate) fn add_if(&mut self, on: bool, s: &[u8])
        requires { length self.old + length s.now ≤ 96 }
        ensures fields { self.new ≡ self.old ++ (if on then s.now else zeros (length s.now)) }
        ensures long { length self.new ≡ length self.old + length s.now }
    {
        if on {
            self.add(s);
        } else {
            self.add_zeros(s.len());
        }
    }

    pub(crate) fn digest(&self) -> [u8; 32]
        ensures { result ≡ sha256 self.now }
    {
        digest::digest(&self.bytes[..self.len])
    }
}
