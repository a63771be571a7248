// MAC, and the two rows that open its message, which CheckMac shares.
#![tactic(auto)]

ghost use Rattle.std.specs.Prelude.{◌≡◌, true};
ghost use Rattle.rules.specs.Plan.{reply, settle};
ghost use Rattle.rules.specs.Mac.{mac_shape, uses_temp_key, draws_key, mac_temp_key, mac_slot, mac_free, first_row, second_row, mac_digest, mac};

use rules::{Device, Fields, Reply, Status, TempKey};

// ---- what CheckMac shares

// Bit 0 or bit 1 of Param1.
pub fn uses_temp_key(f: Fields) -> bool
    ensures { result ≡ uses_temp_key f }
{
    config::param1_bit(0, f) || config::param1_bit(1, f)
}

// Bit 1 clear draws on the key.
pub fn draws_key(f: Fields) -> bool
    ensures { result ≡ draws_key f }
{
    !config::param1_bit(1, f)
}

// The first 32 bytes of the message: TempKey or the slot.
#[tactic(auto, unfolding(rules::specs::Mac::first_row))]
pub fn first_row(d: Device, f: Fields) -> [u8; 32]
    ensures { result ≡ first_row d f }
{
    if config::param1_bit(1, f) {
        d.tempKey.bytes
    } else {
        rows::slot_bytes(d, config::key_of(f))
    }
}

// The second 32 bytes: TempKey or what was sent.
#[tactic(auto, unfolding(rules::specs::Mac::second_row))]
pub fn second_row(d: Device, f: Fields, sent: [u8; 32]) -> [u8; 32]
    ensures { result ≡ second_row d f sent }
{
    if config::param1_bit(0, f) {
        d.tempKey.bytes
    } else {
        sent
    }
}

// ---- MAC

#[tactic(auto, using(rules::proofs::Masks::mac_mask), unfolding(rules::specs::Mac::mac_shape))]
fn mac_shape(f: Fields, input: &[u8]) -> bool
    ensures { result ≡ mac_shape f input.now }
{
    let due = if config::param1_bit(0, f) { 0 } else { 32 };
    config::only_bits(0x77, f.param1) && input.len() == due
}

#[tactic(auto, unfolding(rules::specs::Mac::mac_temp_key))]
fn mac_temp_key(t: TempKey, f: Fields) -> bool
    ensures { result ≡ mac_temp_key t f }
{
    !uses_temp_key(f) || (t.valid && !t.checkFlag && t.sourceFlag == config::param1_bit(2, f))
}

#[tactic(auto, unfolding(rules::specs::Mac::mac_slot))]
fn mac_slot(c: [u8; 88], f: Fields) -> bool
    ensures { result ≡ mac_slot c f }
{
    let k = config::key_of(f);
    !draws_key(f) || (!config::slot_bit(4, c, k) && uses::use_left(c, k))
}

#[tactic(auto, unfolding(rules::specs::Mac::mac_free))]
fn mac_free(d: Device, f: Fields) -> bool
    ensures { result ≡ mac_free d f }
{
    config::both_locked(d.config) && mac_temp_key(d.tempKey, f) && mac_slot(d.config, f)
}

#[tactic(auto, using(rows::proofs::Row::row_all), unfolding(rules::specs::Mac::mac_digest, rules::specs::Mac::mac_shape, rules::specs::Mac::second_row))]
fn mac_digest(d: Device, f: Fields, input: &[u8]) -> [u8; 32]
    requires { mac_shape f input.now ≡ true }
    ensures { result ≡ mac_digest d f input.now }
{
    let first = first_row(d, f);
    let second = second_row(d, f, rows::row_of(input, 0, 32));
    messages::mac_digest(first, second, f, d.otp, d.config)
}

#[tactic(auto, unfolding(rules::specs::Mac::mac, rules::specs::Mac::key_spent))]
pub fn mac(d: Device, f: Fields, input: &[u8]) -> Reply
    ensures { result ≡ reply (settle (mac d f input.now)) d }
{
    if !mac_shape(f, input) {
        return replies::said(d, Status::BadShape);
    }
    if !mac_free(d, f) {
        return replies::said(d, Status::Refused);
    }
    let answer = mac_digest(d, f, input);
    let spent = uses::spend_use(d, config::key_of(f), draws_key(f));
    replies::ended(spent, 32, answer)
}
