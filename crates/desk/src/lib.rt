// The desk's interface, which desk_c exports for C (include/chhutirok.h): a token is 702 lent bytes, which
// each event loads and saves; and a command as a block.
#![tactic(auto)]

ghost use Rattle.std.specs.Prelude.{◌≡◌, ◌+◌, ◌≤◌, take, drop};
ghost use Rattle.rules.specs.Events.{Event, wake, idle, sleep, block, turn, output_after};
ghost use Rattle.token.specs.Outcome.{outcome};
ghost use Rattle.blocks.specs.Blocks.{block_length, buffer_after};
ghost use Rattle.desk.specs.Desk.{in_range, power, loaded, last_six, saved};
ghost use Rattle.desk.specs.Desk.{number, state_after, output_of, answer_length, fresh_call_number, fresh_state, frame_number, version};

use rules::{Device, Power, Slot, TempKey};
use token::{Outcome, Token};

// CHHUTIROK_VERSION
const VERSION: u32 = 1;

#[tactic(auto, unfolding(crate::specs::Desk::in_range))]
fn in_range(s: &[u8; 702]) -> bool
    ensures { result ≡ in_range s.now }
{
    s[696] <= 15 && s[697] <= 1 && s[698] <= 1 && s[699] <= 1 && s[700] <= 1 && s[701] <= 2
}

// No TryFrom: `power` makes a byte above 2 Awake, so no error could come of it; in_range lets no state have one.
fn power_of(b: u8) -> Power
    ensures { result ≡ power b }
{
    match b {
        0 => Power::Asleep,
        1 => Power::Idle,
        _ => Power::Awake,
    }
}

// The N bytes from a place on.
fn part<const N: usize>(s: &[u8; 702], at: usize) -> [u8; N]
    requires { at + N ≤ 702 }
    ensures { result ≡ take N (drop at s.now) }
{
    *s[at..at + N].as_array().unwrap()
}

// A cut of its own: token's `device_from` is private, and through `fresh`, its public caller, it is no plainer: that tests
// the length again and makes an Asleep token, and the check alone did not prove it (tried).
#[tactic(auto, unfolding(crate::specs::Desk::loaded, crate::specs::Desk::temp_key_in))]
fn load(s: &[u8; 702]) -> Token
    ensures { result ≡ loaded s.now }
{
    let tempKey = TempKey {
        bytes: part(s, 664),
        slotID: Slot(s[696]),
        sourceFlag: s[697] == 1,
        genData: s[698] == 1,
        checkFlag: s[699] == 1,
        valid: s[700] == 1,
    };
    Token {
        device: Device {
            config: part(s, 0),
            otp: part(s, 88),
            data: part(s, 152),
            tempKey,
        },
        power: power_of(s[701]),
    }
}

#[tactic(auto, unfolding(crate::specs::Desk::last_six))]
fn last_six(k: TempKey, p: Power) -> [u8; 6]
    ensures { result ≡ last_six k p }
{
    [
        k.slotID.0,
        k.sourceFlag as u8,
        k.genData as u8,
        k.checkFlag as u8,
        k.valid as u8,
        p as u8,
    ]
}

fn save(s: &mut [u8; 702], t: Token)
    ensures { s.new ≡ saved t }
{
    s[..88].copy_from_slice(&t.device.config);
    s[88..152].copy_from_slice(&t.device.otp);
    s[152..664].copy_from_slice(&t.device.data);
    s[664..696].copy_from_slice(&t.device.tempKey.bytes);
    s[696..].copy_from_slice(&last_six(t.device.tempKey, t.power));
}

// An event over the bytes of a state, loaded for it and saved after it; 40 where the bytes are no state:
// numbers and not a Result, for C (include/chhutirok.h).
#[tactic(auto, unfolding(crate::specs::Desk::is_state, crate::specs::Desk::number, crate::specs::Desk::state_after, crate::specs::Desk::output_of, crate::specs::Desk::answer_length))]
fn on_state<F: FnOnce(Token, &[u8], &mut [u8]) -> Outcome>(
    state: &mut [u8],
    random: &[u8],
    output: &mut [u8],
    length: &mut usize,
    run: F,
) -> u32
    ghost event: { Event }
    requires callable { F.IsAlwaysCallable run }
    requires gives { (t : Token) (r : _) (before : _) (o : Outcome) (after : _) → F.post run t r before o after → o ≡ outcome t (turn t.device t.power event r.now) r.now before.now }
    requires leaves { (t : Token) (r : _) (before : _) (o : Outcome) (after : _) → F.post run t r before o after → after.now ≡ output_after (turn t.device t.power event r.now) r.now before.now }
    ensures value { result ≡ number state.old event random.now output.old }
    ensures state_after { state.new ≡ state_after state.old event random.now output.old }
    ensures output_after { output.new ≡ output_of state.old event random.now output.old }
    ensures length_after { length.new ≡ answer_length state.old event random.now output.old }
{
    *length = 0;
    let Some(s) = state.as_mut_array() else {
        return 40;
    };
    if !in_range(s) {
        return 40;
    }
    let o = run(load(s), random, output);
    save(s, o.token);
    *length = o.length;
    token::number_of(o.number) as u32
}

// A fresh state from an image, over 702 bytes that may hold anything; 40 where they are not 702: a number, for C.
#[tactic(auto, unfolding(crate::specs::Desk::fresh_call_number, crate::specs::Desk::fresh_state))]
pub fn chhutirok_fresh(image: &[u8], state: &mut [u8]) -> u32
    ensures value { result ≡ fresh_call_number image.now state.old }
    ensures state_after { state.new ≡ fresh_state image.now state.old }
{
    let Some(whole) = state.as_mut_array() else {
        return 40;
    };
    let m = token::fresh::fresh(image);
    save(whole, m.token);
    token::number_of(m.number) as u32
}

// A function for each event, since C has an export for each (include/chhutirok.h), with the parameters that C has: each one line over
// `on_state`.
pub fn chhutirok_wake(state: &mut [u8], random: &[u8], output: &mut [u8], length: &mut usize) -> u32
    ensures value { result ≡ number state.old wake random.now output.old }
    ensures state_after { state.new ≡ state_after state.old wake random.now output.old }
    ensures output_after { output.new ≡ output_of state.old wake random.now output.old }
    ensures length_after { length.new ≡ answer_length state.old wake random.now output.old }
{
    on_state(state, random, output, length, Token::wake)
}

pub fn chhutirok_idle(state: &mut [u8], random: &[u8], output: &mut [u8], length: &mut usize) -> u32
    ensures value { result ≡ number state.old idle random.now output.old }
    ensures state_after { state.new ≡ state_after state.old idle random.now output.old }
    ensures output_after { output.new ≡ output_of state.old idle random.now output.old }
    ensures length_after { length.new ≡ answer_length state.old idle random.now output.old }
{
    on_state(state, random, output, length, Token::idle)
}

pub fn chhutirok_sleep(
    state: &mut [u8],
    random: &[u8],
    output: &mut [u8],
    length: &mut usize,
) -> u32
    ensures value { result ≡ number state.old sleep random.now output.old }
    ensures state_after { state.new ≡ state_after state.old sleep random.now output.old }
    ensures output_after { output.new ≡ output_of state.old sleep random.now output.old }
    ensures length_after { length.new ≡ answer_length state.old sleep random.now output.old }
{
    on_state(state, random, output, length, Token::sleep)
}

pub fn chhutirok_block(
    state: &mut [u8],
    sent: &[u8],
    random: &[u8],
    output: &mut [u8],
    length: &mut usize,
) -> u32
    ensures value { result ≡ number state.old (block sent.now) random.now output.old }
    ensures state_after { state.new ≡ state_after state.old (block sent.now) random.now output.old }
    ensures output_after { output.new ≡ output_of state.old (block sent.now) random.now output.old }
    ensures length_after { length.new ≡ answer_length state.old (block sent.now) random.now output.old }
{
    on_state(
        state,
        random,
        output,
        length,
        |t, random, output| t.block(sent, random, output),
    )
}

// A command framed as a block, at the front of the buffer; 42 where its data does not fit: a number, for C.
pub fn chhutirok_frame(
    opcode: u8,
    param1: u8,
    param2: u16,
    input: &[u8],
    buffer: &mut [u8],
    length: &mut usize,
) -> u32
    ensures value { result ≡ frame_number input.now buffer.old }
    ensures buffer_after { buffer.new ≡ buffer_after opcode param1 param2 input.now buffer.old }
    ensures length_after { length.new ≡ block_length input.now buffer.old }
{
    let n = blocks::put_block(opcode, param1, param2, input, buffer);
    *length = n;
    if n == 0 { 42 } else { 0 }
}

// The number of this interface.
pub fn chhutirok_version() -> u32
    ensures { result ≡ version }
{
    VERSION
}
