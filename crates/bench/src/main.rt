// Runs the records of standard input on a token and prints a line for each.
#![tactic(auto)]

ghost use Rattle.std.specs.Prelude.{◌≡◌, ◌+◌, ◌≤◌, ◌<◌, IfOk, length};
ghost use Rattle.std.proofs.lemmas.List.Edits.{sets};
ghost use Rattle.rules.specs.declared.Number.TheVariants.{NoAnswer};
ghost use Rattle.token.specs.Outcome.{unchanged};
ghost use Rattle.records.specs.Records.{record_at};
ghost use Rattle.bench.specs.Bench.{turn_of, turn_at, after, outcome_of, in_front, line_at, lines, printed};

use records::{Record, fields, lines};
use rules::Number;
use std::io::{self, Read};
use token::{Outcome, Token};

// No answer, and nothing of the output written.
fn silent(token: Token) -> Outcome
    ensures { result ≡ unchanged token NoAnswer }
{
    Outcome {
        token,
        number: Number::NoAnswer,
        length: 0,
    }
}

// What the record at an offset does to the token; its answer is the front part of the output. WK, ID and SL are given 32 zeros
// for random bytes, which no answer of theirs shows.
fn step(token: Token, what: Record, input: &[u8], at: usize, output: &mut [u8]) -> Outcome
    requires what_is { what ≡ record_at input.now at }
    requires output_length { length output.old ≡ 35 }
    ensures value { result ≡ outcome_of (turn_of what token input.now at) }
    ensures output_after { output.new ≡ in_front (turn_of what token input.now at).answer output.old }
{
    let zeros = [0; 32];
    match what {
        // EE makes a fresh state
        Record::Image => silent(token::fresh::fresh(fields::image_at(input, at)).token),
        Record::Wake => token.wake(&zeros, output),
        Record::Idle => token.idle(&zeros, output),
        Record::Sleep => token.sleep(&zeros, output),
        Record::Block(n) => token.block(
            fields::block_at(input, at, n),
            fields::random_at(input, at, n),
            output,
        ),
        Record::Bad => silent(token),
    }
}

// How far a run has come: the token, and how many bytes of lines there are.
#[derive(Clone, Copy)]
struct Told {
    token: Token,
    used: usize,
}

impl Told {
    // Runs the record at an offset and puts its line after the lines there are.
    fn tell(self, what: Record, input: &[u8], at: usize, out: &mut [u8]) -> Told
        requires what_is { what ≡ record_at input.now at }
        requires input_fits { length input.now ≤ 65536 }
        requires at_within { at < length input.now }
        requires line_fits { self.used + length (line_at self.token input.now at) ≤ length out.old }
        ensures token_value { result.token ≡ after (turn_at self.token input.now at) }
        ensures used_value { result.used ≡ self.used + length (line_at self.token input.now at) }
        ensures out_after { out.new ≡ sets out.old self.used (line_at self.token input.now at) }
    {
        let mut output = [0; 35];
        let next = step(self.token, what, input, at, &mut output);
        let answer = token::front(&output, next.length);
        let length = lines::put_line(out, self.used, what, at as u16, next.number, answer);
        Told {
            token: next.token,
            used: self.used + length,
        }
    }
}

// The lines of an input that is not too long, put at the front of the output; how many bytes they are.
fn run(input: &[u8], out: &mut [u8]) -> usize
    requires input_fits { length input.now ≤ 65536 }
    requires lines_fit { length (lines input.now) ≤ length out.old }
    ensures value { result ≡ length (lines input.now) }
    ensures out_after { out.new ≡ sets out.old 0 (lines input.now) }
{
    let mut told = Told {
        token: token::fresh::fresh(b"").token,
        used: 0,
    };
    let mut at = 0;
    // record by record, each as long as it says: no index is counted
    while at < input.len() {
        let what = records::record_at(input, at);
        told = told.tell(what, input, at, out);
        if what == Record::Bad {
            return told.used;
        }
        at += records::length_of(what);
    }
    told.used
}

// The longest input that is run.
const LIMIT: usize = 65536;

// What is printed for an input, put at the front of the output; how many bytes it is.
fn print(input: &[u8], out: &mut [u8]) -> usize
    requires { length (printed input.now) ≤ length out.old }
    ensures value { result ≡ length (printed input.now) }
    ensures out_after { out.new ≡ sets out.old 0 (printed input.now) }
{
    if LIMIT < input.len() {
        return lines::put_too_long(out, 0);
    }
    run(input, out)
}

// Zeros, of which a caller's proof knows how many they are and need not count them.
fn room_of<const N: usize>() -> [u8; N]
    ensures { length result ≡ N }
{
    [0; N]
}

// Reads until the room is full or the input ends; how many bytes there are. By hand: std's `read_exact` refuses a shorter input,
// and its `read_to_end` needs a heap.
fn read_full(from: &mut impl Read, room: &mut [u8]) -> io::Result<usize>
    ensures { IfOk result (λ n. n ≤ length room.new) }
{
    let mut n = 0;
    loop {
        let more = from.read(&mut room[n..])?;
        if more == 0 {
            return Ok(n);
        }
        n += more;
    }
}

fn main(rt: HostRuntime) -> io::Result<()> {
    // One byte past the limit is enough to see that an input is too long.
    let mut input = room_of::<65537>();
    // No line has more than seven times its record's bytes, and there is at most one `bad` line, of ten: 7 * 65,536 + 10.
    let mut out = room_of::<458762>();
    let n = read_full(&mut rt.stdin(), &mut input)?;
    let used = print(&input[..n], &mut out);
    rt.write_all(&out[..used])
}
