// The bench program's lines, each put at a position of a lent output. Printed by hand, since a line that does not fit leaves the
// output as it was (`put_output`): `write!` into lent bytes would leave a part of it there, and a String needs a heap.
ghost use Rattle.std.specs.Prelude.{◌≡◌, ◌++◌, ◌*◌, ◌<◌, length};
ghost use Rattle.records.specs.Records.{ascii, hex_digit, hex, zeros_in_front, decimal, event_line, line_of, too_long, put_length, put_output};
ghost use Rattle.records.specs.Records.{digit as decimal_digit};

use crate::Record;
use rules::Number;

#[tactic(auto, using(std::proofs::lemmas::Bool::Decides::nat_tests))]
fn hex_digit(d: u8) -> u8
    requires { d < 16 }
    ensures { result ≡ hex_digit d }
{
    if d < 10 { b'0' + d } else { b'A' + (d - 10) }
}

// Bytes in upper-case hex, over an output that has just their room. Tried, for the index 2 * i: `out.chunks_exact_mut(2).zip(s)`.
// The proof did not close: the library says nothing of what the slice ends as.
fn put_hex(out: &mut [u8], s: &[u8])
    requires { length out.old ≡ 2 * length s.now }
    ensures { out.new ≡ hex s.now }
{
    for (i, b) in s.iter().enumerate() {
        out[2 * i] = hex_digit(b / 16);
        out[2 * i + 1] = hex_digit(b % 16);
    }
}

// A line of two parts at the front of the room; nothing where it does not fit. The count of bytes put is 0 then and no None, as
// `put_length` says in the promises of `put_line` and `put_too_long`, and bench adds the counts.
fn put_text(room: &mut [u8], a: &[u8], b: &[u8]) -> usize
    ensures value { result ≡ put_length room.old 0 (a.now ++ b.now) }
    ensures out_after { room.new ≡ put_output room.old 0 (a.now ++ b.now) }
{
    if room.len() < a.len() || room.len() - a.len() < b.len() {
        return 0;
    }
    let end = a.len() + b.len();
    room[..a.len()].copy_from_slice(a);
    room[a.len()..end].copy_from_slice(b);
    end
}

// A name, an answer in hex and a line feed; nothing where they do not fit.
fn put_answer(room: &mut [u8], name: &[u8], answer: &[u8]) -> usize
    ensures value { result ≡ put_length room.old 0 (name.now ++ (hex answer.now ++ ascii "\n")) }
    ensures out_after { room.new ≡ put_output room.old 0 (name.now ++ (hex answer.now ++ ascii "\n")) }
{
    if room.len() <= name.len() || (room.len() - name.len() - 1) / 2 < answer.len() {
        return 0;
    }
    let end = name.len() + 2 * answer.len();
    room[..name.len()].copy_from_slice(name);
    put_hex(&mut room[name.len()..end], answer);
    room[end] = b'\n';
    end + 1
}

#[tactic(auto, unfolding(crate::specs::Records::event_line))]
fn put_event(room: &mut [u8], name: &[u8], number: Number, answer: &[u8]) -> usize
    ensures value { result ≡ put_length room.old 0 (event_line name.now number answer.now) }
    ensures out_after { room.new ≡ put_output room.old 0 (event_line name.now number answer.now) }
{
    if matches!(number, Number::Answered) {
        put_answer(room, name, answer)
    } else {
        put_text(room, name, b"none\n")
    }
}

fn digit(n: u16) -> u8
    ensures { result ≡ decimal_digit n }
{
    b'0' + (n % 10) as u8
}

fn zeros_in_front(n: u16) -> usize
    ensures { result ≡ zeros_in_front n }
{
    match n {
        0..=9 => 4,
        10..=99 => 3,
        100..=999 => 2,
        1000..=9999 => 1,
        _ => 0,
    }
}

fn put_bad(room: &mut [u8], offset: u16) -> usize
    ensures value { result ≡ put_length room.old 0 (ascii "bad " ++ (decimal offset ++ ascii "\n")) }
    ensures out_after { room.new ≡ put_output room.old 0 (ascii "bad " ++ (decimal offset ++ ascii "\n")) }
{
    let digits = [
        digit(offset / 10000),
        digit(offset / 1000),
        digit(offset / 100),
        digit(offset / 10),
        digit(offset),
        b'\n',
    ];
    put_text(room, b"bad ", &digits[zeros_in_front(offset)..])
}

// The line of a record, at the front of the room.
fn put_record(room: &mut [u8], what: Record, offset: u16, number: Number, answer: &[u8]) -> usize
    ensures value { result ≡ put_length room.old 0 (line_of what offset number answer.now) }
    ensures out_after { room.new ≡ put_output room.old 0 (line_of what offset number answer.now) }
{
    match what {
        Record::Image => put_text(room, b"image\n", b""),
        Record::Wake => put_event(room, b"wake ", number, answer),
        Record::Idle => put_event(room, b"idle ", number, answer),
        Record::Sleep => put_event(room, b"sleep ", number, answer),
        Record::Block(_) => put_event(room, b"block ", number, answer),
        Record::Bad => put_bad(room, offset),
    }
}

// The line of a record at an offset, whose event had this number and this answer; its length. Nothing, and 0, where it does
// not fit.
// A place beside an output, as in `put_too_long`: their promises have it so (`put_length`).
pub fn put_line(
    out: &mut [u8],
    at: usize,
    what: Record,
    offset: u16,
    number: Number,
    answer: &[u8],
) -> usize
    ensures value { result ≡ put_length out.old at (line_of what offset number answer.now) }
    ensures out_after { out.new ≡ put_output out.old at (line_of what offset number answer.now) }
{
    // what is left from the position on
    let from = at.min(out.len());
    put_record(&mut out[from..], what, offset, number, answer)
}

pub fn put_too_long(out: &mut [u8], at: usize) -> usize
    ensures value { result ≡ put_length out.old at too_long }
    ensures out_after { out.new ≡ put_output out.old at too_long }
{
    let from = at.min(out.len());
    put_text(&mut out[from..], b"too long\n", b"")
}
