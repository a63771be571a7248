// The fields of a record, as parts of the input from a place on, as the definitions name them (`image_at`, `block_at`, `random_at`).
ghost use Rattle.std.specs.Prelude.{◌≡◌, take, drop};
ghost use Rattle.records.specs.Records.{image_at, block_at, random_at};

// What is left of a slice from a position on.
pub(crate) fn from(s: &[u8], at: usize) -> &[u8]
    ensures { result.now ≡ drop at s.now }
{
    s.get(at..).unwrap_or(&[])
}

// The first n bytes of a slice, or all of them.
fn front(s: &[u8], n: usize) -> &[u8]
    ensures { result.now ≡ take n s.now }
{
    s.get(..n).unwrap_or(s)
}

// The 664 bytes of an EE record.
pub fn image_at(input: &[u8], at: usize) -> &[u8]
    ensures { result.now ≡ image_at input.now at }
{
    front(from(from(input, at), 2), 664)
}

// The block of a BK record with this length byte.
pub fn block_at(input: &[u8], at: usize, n: u8) -> &[u8]
    ensures { result.now ≡ block_at input.now at n }
{
    front(from(from(input, at), 3), n as usize)
}

// Its random bytes.
pub fn random_at(input: &[u8], at: usize, n: u8) -> &[u8]
    ensures { result.now ≡ random_at input.now at n }
{
    front(from(from(input, at), 3 + n as usize), 32)
}
