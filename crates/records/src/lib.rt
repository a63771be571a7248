// The bench program's records, as functions on slices; its lines are in `lines`.
#![tactic(auto)]

ghost use Rattle.std.specs.Prelude.{◌≡◌};
ghost use Rattle.records.specs.Records.{announced, uncut, length_of, record_at};

pub mod fields;
pub mod lines;

// What stands at an offset of the input. `Bad` is a case and no Option: `record_at`, `length_of` and `line_of` name it, and it
// has a line of its own.
#[derive(Clone, Copy, PartialEq, Eq)]
pub enum Record {
    Image,
    Wake,
    Idle,
    Sleep,
    // with its length byte
    Block(u8),
    // bad, cut, or before the first EE
    Bad,
}

#[tactic(auto, using(crate::proofs::Marks::marks), unfolding(crate::specs::Records::announced))]
fn announced_by(rest: &[u8]) -> Record
    ensures { result ≡ announced rest.now }
{
    match rest {
        [b'E', b'E', ..] => Record::Image,
        [b'W', b'K', ..] => Record::Wake,
        [b'I', b'D', ..] => Record::Idle,
        [b'S', b'L', ..] => Record::Sleep,
        // 0 for the length byte where it is cut off
        [b'B', b'K', ..] => Record::Block(rest.get(2).copied().unwrap_or(0)),
        _ => Record::Bad,
    }
}

// How many bytes a record takes.
pub fn length_of(what: Record) -> usize
    ensures { result ≡ length_of what }
{
    match what {
        Record::Image => 2 + 664,
        Record::Wake | Record::Idle | Record::Sleep => 2,
        Record::Block(n) => 2 + 1 + n as usize + 32,
        Record::Bad => 0,
    }
}

#[tactic(auto, unfolding(crate::specs::Records::uncut))]
fn uncut_at_front(rest: &[u8]) -> Record
    ensures { result ≡ uncut rest.now }
{
    let what = announced_by(rest);
    if rest.len() < length_of(what) {
        return Record::Bad;
    }
    what
}

// The record at an offset of the input; Bad where there is none.
#[tactic(auto, unfolding(crate::specs::Records::record_at))]
pub fn record_at(input: &[u8], at: usize) -> Record
    ensures { result ≡ record_at input.now at }
{
    let what = uncut_at_front(fields::from(input, at));
    if at == 0 && what != Record::Image {
        Record::Bad
    } else {
        what
    }
}
