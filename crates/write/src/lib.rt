// Write: what it stores, once its shape and its conditions (free.rt) hold.
#![tactic(auto)]

ghost use Rattle.std.specs.Prelude.{◌≡◌, true, length};
ghost use Rattle.digest.specs.Sha256.{sha256};
ghost use Rattle.rules.specs.Words.{equal};
ghost use Rattle.rules.specs.Plan.{store_all, reply, settle};
ghost use Rattle.rules.specs.Messages.{header, layout96};
ghost use Rattle.rules.specs.Address.{size, address_fits};
ghost use Rattle.rules.specs.Write.{and_row, written, write};

use rules::{Device, Fields, Reply, Status};

mod free;

// One row AND another, byte by byte.
// Its twin is rows::xor_row: a function over the operation would be no plainer than the line that each is.
fn and_row(a: [u8; 32], b: [u8; 32]) -> [u8; 32]
    ensures { result ≡ and_row a b }
{
    std::array::from_fn(|i| a[i] & b[i])
}

// Whether a MAC is that of an encrypted write.
fn mac_right(d: Device, f: Fields, value: [u8; 32], mac: &[u8]) -> bool
    ensures { result ≡ equal (sha256 (layout96 d.tempKey.bytes (header 0x12 f) d.config value)) mac.now }
{
    let header = messages::header_of(0x12, f);
    let right = messages::layout96_digest(d.tempKey.bytes, header, d.config, value);
    rows::equal_rows(&right, mac)
}

// A value stored where the fields say, in OTP with values locked as old AND new.
#[tactic(auto, using(crate::proofs::Fits::stored), unfolding(rules::specs::Write::written, rules::specs::Write::otp_written))]
fn write_value(d: Device, f: Fields, value: &[u8]) -> Device
    requires value_length { length value.now ≡ size f }
    requires address { address_fits f ≡ true }
    ensures { result ≡ store_all d (written d f value.now) }
{
    let at = address::position_of(f);
    // The zone is a number, as the definition `zone` has it: at 3, which is no zone, `written` answers as at 2.
    match f.param1 % 4 {
        0 => stores::store_config_row(d, at, value),
        1 if config::values_locked(d.config) => {
            let n = value.len();
            let old = rows::row_of(&d.otp, at, n);
            let new = rows::row_of(value, 0, n);
            stores::store_otp_row(d, at, &and_row(old, new)[..n])
        }
        1 => stores::store_otp_row(d, at, value),
        _ => stores::store_data_row(d, at, value),
    }
}

#[tactic(auto, using(crate::proofs::Fits::shaped), unfolding(rules::specs::Write::write, rules::specs::Write::write_effect, rules::specs::Write::write_mac))]
pub fn write(d: Device, f: Fields, input: &[u8]) -> Reply
    ensures { result ≡ reply (settle (write d f input.now)) d }
{
    if !free::write_shape(f, input) {
        return replies::said(d, Status::BadShape);
    }
    if !free::write_free(d, f, input) {
        return replies::said(d, Status::Refused);
    }
    if !free::is_encrypted(d.config, f) {
        return replies::said(write_value(d, f, input), Status::Done);
    }
    // The value XOR TempKey, and behind it the MAC, which decides.
    let value = rows::xor_row(rows::row_of(input, 0, 32), d.tempKey.bytes);
    if !mac_right(d, f, value, &input[32..]) {
        return replies::said(d, Status::Refused);
    }
    replies::said(write_value(d, f, &value), Status::Done)
}
