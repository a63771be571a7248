// GenDig.
#![tactic(auto)]

ghost use Rattle.std.specs.Prelude.{◌≡◌, true, ◌&&◌, ◌||◌};
ghost use Rattle.rules.specs.Words.{◌under◌};
ghost use Rattle.rules.specs.Plan.{reply, settle};
ghost use Rattle.rules.specs.GenDig.{from_data, key_named, check_only_key, gen_dig_shape, gen_dig_free, gen_dig_value, gen_dig_header, gen_dig_key, gen_dig};

use rules::{Device, Fields, Reply, Slot, Status, TempKey};

// Param1 2 with a CheckOnly key.
fn check_only_key(c: [u8; 88], f: Fields) -> bool
    ensures { result ≡ check_only_key c f }
{
    f.param1 == 2 && config::slot_bit(4, c, config::key_of(f))
}

// Whether Param1 and Param2 name a value: a slot, or one of two blocks of configuration or OTP.
fn names_value(f: Fields) -> bool
    ensures { result ≡ (from_data f || (f.param1 under 2 && f.param2 under 2)) }
{
    f.param1 == 2 || (f.param1 < 2 && f.param2 < 2)
}

#[tactic(auto, unfolding(rules::specs::GenDig::gen_dig_shape))]
fn gen_dig_shape(c: [u8; 88], f: Fields, input: &[u8]) -> bool
    ensures { result ≡ gen_dig_shape c f input.now }
{
    let due = if check_only_key(c, f) { 4 } else { 0 };
    names_value(f) && input.len() == due
}

#[tactic(auto, unfolding(rules::specs::GenDig::gen_dig_free))]
fn gen_dig_free(d: Device, f: Fields) -> bool
    ensures { result ≡ gen_dig_free d f }
{
    config::config_locked(d.config)
        && d.tempKey.valid
        && (f.param1 != 2 || (f.param2 < 0x8000 && uses::use_left(d.config, config::key_of(f))))
}

// Of configuration and OTP a block of 32 bytes, which is there under the shape.
#[tactic(auto, using(rows::proofs::Row::row_whole), unfolding(rules::specs::GenDig::gen_dig_value))]
fn gen_dig_value(d: Device, f: Fields) -> [u8; 32]
    requires { (from_data f || (f.param1 under 2 && f.param2 under 2)) ≡ true }
    ensures { result ≡ gen_dig_value d f }
{
    let at = 32 * f.param2 as usize;
    match f.param1 {
        0 => rows::row_of(&d.config, at, 32),
        1 => rows::row_of(&d.otp, at, 32),
        _ => rows::slot_bytes(d, config::key_of(f)),
    }
}

// The 4 bytes sent with a CheckOnly key replace the 4 header bytes.
#[tactic(auto, unfolding(rules::specs::GenDig::gen_dig_shape, rules::specs::GenDig::gen_dig_header))]
fn gen_dig_header(c: [u8; 88], f: Fields, input: &[u8]) -> [u8; 4]
    requires { gen_dig_shape c f input.now ≡ true }
    ensures { result ≡ gen_dig_header c f input.now }
{
    if check_only_key(c, f) {
        *input.as_array().unwrap()
    } else {
        messages::header_of(0x15, f)
    }
}

// Data with Param2 up to 15.
fn key_named(f: Fields) -> bool
    ensures { result ≡ key_named f }
{
    f.param1 == 2 && f.param2 <= 15
}

#[tactic(auto, unfolding(rules::specs::GenDig::gen_dig_shape, rules::specs::GenDig::gen_dig_key))]
fn gen_dig_key(d: Device, f: Fields, input: &[u8]) -> TempKey
    requires { gen_dig_shape d.config f input.now ≡ true }
    ensures { result ≡ gen_dig_key d f input.now }
{
    let value = gen_dig_value(d, f);
    let header = gen_dig_header(d.config, f, input);
    let old = d.tempKey;
    TempKey {
        bytes: messages::layout96_digest(value, header, d.config, old.bytes),
        slotID: if key_named(f) {
            config::key_of(f)
        } else {
            Slot(0)
        },
        sourceFlag: old.sourceFlag,
        genData: key_named(f),
        checkFlag: check_only_key(d.config, f) || old.checkFlag,
        valid: true,
    }
}

#[tactic(auto, unfolding(rules::specs::GenDig::gen_dig, rules::specs::GenDig::gen_dig_spent))]
pub fn gen_dig(d: Device, f: Fields, input: &[u8]) -> Reply
    ensures { result ≡ reply (settle (gen_dig d f input.now)) d }
{
    if !gen_dig_shape(d.config, f, input) {
        return replies::said(d, Status::BadShape);
    }
    if !gen_dig_free(d, f) {
        return replies::said(d, Status::Refused);
    }
    let key = gen_dig_key(d, f, input);
    let spent = uses::spend_use(d, config::key_of(f), f.param1 == 2);
    replies::answered(spent, key, Status::Done)
}
