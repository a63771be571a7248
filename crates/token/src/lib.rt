// The token: a fresh state from an image, the four events as methods on it, and the answer's front part.
#![tactic(auto)]

ghost use Rattle.std.specs.Prelude.{◌≡◌, true, Some, None, if◌then◌else◌, ◌∷◌, [], ◌++◌, ◌≤◌, length, drop};
ghost use Rattle.wire.specs.Wire.{frame};
ghost use Rattle.rules.specs.declared.Number.TheVariants.{Answered};
ghost use Rattle.rules.specs.State.{number_of, status_byte, is_awake};
ghost use Rattle.rules.specs.Plan.{reply};
ghost use Rattle.rules.specs.Commands.{command_of, plan_of};
ghost use Rattle.rules.specs.Events.{plan_for, front_of, wake_turn, idle_turn, sleep_turn, block_turn, output_after};
ghost use Rattle.token.specs.Outcome.{outcome, unchanged, buffers_fit, refusal};

use rules::{Device, Fields, Number, Power, Reply, Status};

pub mod fresh;

// The state: the three zones and TempKey, and power.
#[derive(Clone, Copy)]
pub struct Token {
    pub device: Device,
    pub power: Power,
}

// What an event gives: the new state, its number and the answer's length. A number beside a length, and no Result:
// document 01 hands back all three by value, and the definition `outcome` and the theorems of demands read each.
#[derive(Clone, Copy)]
pub struct Outcome {
    pub token: Token,
    pub number: Number,
    pub length: usize,
}

// The document's number of a case. A function of its own since its promise names it (docs/PROMISES.md).
pub fn number_of(n: Number) -> u8
    ensures { result ≡ number_of n }
{
    n as u8
}

// The answer: the first n bytes of the lent output, and the empty part for a length beyond it.
pub fn front(output: &[u8], n: usize) -> &[u8]
    ensures { result.now ≡ front_of n output.now }
{
    output.get(..n).unwrap_or(&[])
}

// The number of an event whose buffers are not right: 1 for the output, else 2 for the random bytes. The four events
// each begin with it: each one's promise is over its own turn, and a closure for what comes after would hand the
// whole state on once more.
fn refusal(random: &[u8], output: &[u8]) -> Option<Number>
    ensures { result ≡ (if buffers_fit (length random.now) (length output.now) then None else Some (refusal (length output.now))) }
{
    if output.len() < 35 {
        Some(Number::ShortOutput)
    } else if random.len() != 32 {
        Some(Number::WrongRandom)
    } else {
        None
    }
}

// A token as an event leaves it, and no answer.
fn left(token: Token, number: Number) -> Outcome
    ensures { result ≡ unchanged token number }
{
    Outcome {
        token,
        number,
        length: 0,
    }
}

// A token as an event leaves it, and an answer of so many bytes.
fn answered(token: Token, n: usize) -> Outcome
    ensures { result ≡ record { token = token; number = Answered; length = n } }
{
    Outcome {
        token,
        number: Number::Answered,
        length: n,
    }
}

// A command by its opcode's number: the match that document 01 asks for. Not inlined, for else every event pays for what the
// commands keep on the stack: a damaged block took 220 ns and not 51, a Read of four bytes 420 and not 235.
#[tactic(auto, unfolding(rules::specs::Commands::command_of))]
#[inline(never)]
fn run(d: Device, opcode: u8, f: Fields, input: &[u8], random: [u8; 32]) -> Reply
    ensures { result ≡ reply (plan_of (command_of opcode) d f input.now random) d }
{
    match opcode {
        0x02 => read::read(d, f, input),
        0x08 => mac::mac(d, f, input),
        0x12 => write::write(d, f, input),
        0x15 => gen_dig::gen_dig(d, f, input),
        0x16 => nonce::nonce(d, f, input, random),
        0x17 => upkeep::lock(d, f, input),
        0x1B => nonce::random(d, f, input, random),
        0x1C => derive_key::derive_key(d, f, input),
        0x20 => upkeep::update_extra(d, f, input),
        0x28 => check_mac::check_mac(d, f, input),
        0x30 => upkeep::dev_rev(d, f, input),
        _ => replies::said(d, Status::BadShape),
    }
}

// A whole block's command.
#[tactic(auto, using(rows::proofs::Row::row_all), unfolding(rules::specs::Events::plan_for))]
fn run_block(d: Device, block: &[u8], random: &[u8]) -> Reply
    requires block_fits { 7 ≤ length block.now }
    requires random_length { length random.now ≡ 32 }
    ensures { result ≡ reply (plan_for d block.now random.now) d }
{
    let f = Fields {
        param1: block[2],
        param2: u16::from_le_bytes([block[3], block[4]]),
    };
    run(
        d,
        block[1],
        f,
        &block[5..block.len() - 2],
        rows::row_of(random, 0, 32),
    )
}

// A status framed at the front of the output.
#[tactic(auto, using(wire::proofs::Laws::put_fits))]
fn put_status(output: &mut [u8], s: Status) -> usize
    requires { 35 ≤ length output.old }
    ensures value { result ≡ 4 }
    ensures output_after { output.new ≡ frame (status_byte s ∷ []) ++ drop 4 output.old }
{
    wire::put(output, &[replies::status_byte(s)])
}

// A block given to a token that is Awake, with buffers that are right.
#[tactic(auto, using(wire::proofs::Laws::whole_length, rules::proofs::Answers::few_for), unfolding(crate::specs::Outcome::outcome, rules::specs::Events::block_turn, rules::specs::Events::output_after))]
fn answer_block(token: Token, block: &[u8], random: &[u8], output: &mut [u8]) -> Outcome
    requires awake { is_awake token.power ≡ true }
    requires random_length { length random.now ≡ 32 }
    requires output_fits { 35 ≤ length output.old }
    ensures value { result ≡ outcome token (block_turn token.device token.power block.now random.now) random.now output.old }
    ensures output_after { output.new ≡ output_after (block_turn token.device token.power block.now random.now) random.now output.old }
{
    if !wire::is_whole(block) {
        return answered(token, put_status(output, Status::Damaged));
    }
    let r = run_block(token.device, block, random);
    let token = Token {
        device: r.device,
        ..token
    };
    answered(token, wire::put(output, &r.bytes[..r.len]))
}

// Random bytes and output one by one, as the definition `outcome` takes them.
impl Token {
    #[tactic(auto, unfolding(crate::specs::Outcome::outcome, rules::specs::Events::wake_turn, rules::specs::Events::output_after))]
    pub fn wake(self, random: &[u8], output: &mut [u8]) -> Outcome
        ensures value { result ≡ outcome self (wake_turn self.device self.power) random.now output.old }
        ensures output_after { output.new ≡ output_after (wake_turn self.device self.power) random.now output.old }
    {
        if let Some(number) = refusal(random, output) {
            return left(self, number);
        }
        if matches!(self.power, Power::Awake) {
            return left(self, Number::NoAnswer);
        }
        let token = Token {
            power: Power::Awake,
            ..self
        };
        answered(token, put_status(output, Status::Woken))
    }

    #[tactic(auto, unfolding(crate::specs::Outcome::outcome, rules::specs::Events::idle_turn, rules::specs::Events::output_after))]
    pub fn idle(self, random: &[u8], output: &mut [u8]) -> Outcome
        ensures value { result ≡ outcome self (idle_turn self.device self.power) random.now output.old }
        ensures output_after { output.new ≡ output_after (idle_turn self.device self.power) random.now output.old }
    {
        if let Some(number) = refusal(random, output) {
            return left(self, number);
        }
        let power = if matches!(self.power, Power::Awake) {
            Power::Idle
        } else {
            self.power
        };
        left(Token { power, ..self }, Number::NoAnswer)
    }

    // Also the watchdog's expiry.
    #[tactic(auto, unfolding(crate::specs::Outcome::outcome, rules::specs::Events::sleep_turn, rules::specs::Events::output_after))]
    pub fn sleep(self, random: &[u8], output: &mut [u8]) -> Outcome
        ensures value { result ≡ outcome self (sleep_turn self.device self.power) random.now output.old }
        ensures output_after { output.new ≡ output_after (sleep_turn self.device self.power) random.now output.old }
    {
        if let Some(number) = refusal(random, output) {
            return left(self, number);
        }
        let mut token = self;
        token.device.tempKey = replies::emptied_key();
        token.power = Power::Asleep;
        left(token, Number::NoAnswer)
    }

    #[tactic(auto, unfolding(crate::specs::Outcome::outcome, rules::specs::Events::block_turn, rules::specs::Events::output_after))]
    pub fn block(self, block: &[u8], random: &[u8], output: &mut [u8]) -> Outcome
        ensures value { result ≡ outcome self (block_turn self.device self.power block.now random.now) random.now output.old }
        ensures output_after { output.new ≡ output_after (block_turn self.device self.power block.now random.now) random.now output.old }
    {
        if let Some(number) = refusal(random, output) {
            return left(self, number);
        }
        if !matches!(self.power, Power::Awake) {
            return left(self, Number::NoAnswer);
        }
        answer_block(self, block, random, output)
    }
}
