// The messages of the commands, put together field by field, and their digests.
#![tactic(auto)]

ghost use Rattle.std.specs.Prelude.{◌≡◌, ◌++◌, length, take};
ghost use Rattle.digest.specs.Sha256.{sha256};
ghost use Rattle.rules.specs.State.{sn0_1, sn8};
ghost use Rattle.rules.specs.Messages.{header, nonce_message, mac_message, check_mac_message, layout96, parent_message};

use message::Message;
use rules::Fields;

mod message;

// Opcode, Param1, Param2.
pub fn header_of(opcode: u8, f: Fields) -> [u8; 4]
    ensures { result ≡ header opcode f }
{
    let [low, high] = f.param2.to_le_bytes();
    [opcode, f.param1, low, high]
}

// Nonce's digest of the random and the first 20 bytes of the input.
#[tactic(auto, unfolding(rules::specs::Messages::nonce_message))]
pub fn nonce_digest(random: [u8; 32], input: [u8; 32], f: Fields) -> [u8; 32]
    ensures { result ≡ sha256 (nonce_message random (take 20 input) f) }
{
    let mut m = Message::new();
    m.add(&random);
    m.add(&input[..20]);
    m.add(&header_of(0x16, f)[..3]);
    m.digest()
}

// Value, header, SN8, SN0-1: the start of the 96-byte layout, and all of DeriveKey's MAC.
fn layout39(value: [u8; 32], head: [u8; 4], c: [u8; 88]) -> Message
    ensures fields { result ≡ value ++ head ++ sn8 c ++ sn0_1 c }
    ensures long { length result ≡ 39 }
{
    let mut start = Message::new();
    start.add(&value);
    start.add(&head);
    start.add(&c[12..13]); // SN8
    start.add(&c[..2]); // SN0-1
    start
}

// The 96-byte layout of GenDig, DeriveKey and an encrypted Write.
#[tactic(auto, unfolding(rules::specs::Messages::layout96))]
pub fn layout96_digest(value: [u8; 32], head: [u8; 4], c: [u8; 88], last: [u8; 32]) -> [u8; 32]
    ensures { result ≡ sha256 (layout96 value head c last) }
{
    let mut m = layout39(value, head, c);
    m.add_zeros(25);
    m.add(&last);
    m.digest()
}

// DeriveKey's MAC.
#[tactic(auto, unfolding(rules::specs::Messages::parent_message))]
pub fn parent_digest(parent: [u8; 32], f: Fields, c: [u8; 88]) -> [u8; 32]
    ensures { result ≡ sha256 (parent_message parent f c) }
{
    layout39(parent, header_of(0x1C, f), c).digest()
}

// MAC's digest: OTP0-7 by bit 4 or 5 of Param1, OTP8-10 by bit 4; of the serial number SN4-7 and SN2-3 by bit 6.
#[tactic(auto, unfolding(rules::specs::Messages::mac_message))]
pub fn mac_digest(
    first: [u8; 32],
    second: [u8; 32],
    f: Fields,
    otp: [u8; 64],
    c: [u8; 88],
) -> [u8; 32]
    ensures { result ≡ sha256 (mac_message first second f otp c) }
{
    let all_otp = config::param1_bit(4, f);
    let serial = config::param1_bit(6, f);
    let mut m = Message::new();
    m.add(&first);
    m.add(&second);
    m.add(&header_of(0x08, f));
    m.add_if(all_otp || config::param1_bit(5, f), &otp[..8]);
    m.add_if(all_otp, &otp[8..11]);
    m.add(&c[12..13]); // SN8
    m.add_if(serial, &c[8..12]); // SN4-7
    m.add(&c[..2]); // SN0-1
    m.add_if(serial, &c[2..4]); // SN2-3
    m.digest()
}

// CheckMac's digest; of `other` the first 13 bytes count.
#[tactic(auto, unfolding(rules::specs::Messages::check_mac_message))]
pub fn check_mac_digest(
    first: [u8; 32],
    second: [u8; 32],
    f: Fields,
    other: [u8; 32],
    otp: [u8; 64],
    c: [u8; 88],
) -> [u8; 32]
    ensures { result ≡ sha256 (check_mac_message first second f other otp c) }
{
    let mut m = Message::new();
    m.add(&first);
    m.add(&second);
    m.add(&other[..4]);
    m.add_if(config::param1_bit(5, f), &otp[..8]);
    m.add(&other[4..7]);
    m.add(&c[12..13]); // SN8
    m.add(&other[7..11]);
    m.add(&c[..2]); // SN0-1
    m.add(&other[11..13]);
    m.digest()
}
