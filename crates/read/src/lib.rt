// Read.
#![tactic(auto)]

ghost use Rattle.std.specs.Prelude.{◌≡◌, true, ◌&&◌, ◌+◌, ◌≤◌, length, take, drop};
ghost use Rattle.rules.specs.Words.{bit, xor_row};
ghost use Rattle.rules.specs.State.{slot_bytes, encrypt_read, read_key};
ghost use Rattle.rules.specs.Plan.{gives, reply, settle};
ghost use Rattle.rules.specs.Address.{size, address_fits, position, encrypts, encrypts_for};
ghost use Rattle.rules.specs.Read.{read_shape, otp_read_free, data_read_free, read_free, read_bytes, read};

use rules::{Device, Fields, Reply, Slot, Status};

#[tactic(auto, using(rules::proofs::Masks::read_mask), unfolding(rules::specs::Read::read_shape))]
fn read_shape(f: Fields, input: &[u8]) -> bool
    ensures { result ≡ read_shape f input.now }
{
    config::only_bits(0x83, f.param1) && address::address_fits(f) && input.is_empty()
}

// The OTP mode lets a read through: AA or 55 all, 00 only words 2-15 by 4, other modes none.
#[tactic(auto, unfolding(rules::specs::Read::otp_read_free))]
fn otp_read_free(c: [u8; 88], f: Fields) -> bool
    ensures { result ≡ otp_read_free c f }
{
    if !config::both_locked(c) {
        return false;
    }
    match c[18] {
        0xAA | 0x55 => true,
        0x00 => !config::param1_bit(7, f) && address::word_of(f).0 >= 2,
        _ => false,
    }
}

// What a read of a secret slot needs: EncryptRead, 32 bytes, and TempKey.
fn secret_read_free(d: Device, f: Fields, k: Slot) -> bool
    ensures { result ≡ (encrypt_read d.config k && bit 7 f.param1 && encrypts d.tempKey && encrypts_for d.config d.tempKey (read_key d.config k) k) }
{
    config::slot_bit(6, d.config, k)
        && config::param1_bit(7, f)
        && address::encrypts(d.tempKey)
        && address::encrypts_for(d.config, d.tempKey, config::read_key(d.config, k), k)
}

#[tactic(auto, unfolding(rules::specs::Read::data_read_free))]
fn data_read_free(d: Device, f: Fields) -> bool
    ensures { result ≡ data_read_free d f }
{
    let k = address::slot_of(f);
    if !config::both_locked(d.config) {
        return false;
    }
    if config::slot_bit(7, d.config, k) {
        secret_read_free(d, f, k)
    } else {
        !config::slot_bit(6, d.config, k)
    }
}

#[tactic(auto, unfolding(rules::specs::Read::read_free))]
fn read_free(d: Device, f: Fields) -> bool
    ensures { result ≡ read_free d f }
{
    // The zone is a number, as the definition `zone` has it: at 3, which is no zone, `read_free` answers as at 2.
    match f.param1 % 4 {
        0 => true,
        1 => otp_read_free(d.config, f),
        _ => data_read_free(d, f),
    }
}

// The bytes of a zone in clear.
#[tactic(auto, using(rows::proofs::Row::row_there, rules::proofs::Rows::length_part, address::proofs::Within::size_small))]
fn read_clear(d: Device, zone: &[u8], f: Fields) -> Reply
    requires { position f + size f ≤ length zone.now }
    ensures { result ≡ reply (gives (take (size f) (drop (position f) zone.now))) d }
{
    let n = address::size_of(f);
    replies::ended(d, n, rows::row_of(zone, address::position_of(f), n))
}

// The 32 bytes of a slot XOR TempKey.
fn read_encrypted(d: Device, k: Slot) -> Reply
    ensures { result ≡ reply (gives (xor_row (slot_bytes d k) d.tempKey.bytes)) d }
{
    let row = rows::xor_row(rows::slot_bytes(d, k), d.tempKey.bytes);
    replies::ended(d, 32, row)
}

// The bytes that are read.
#[tactic(auto, using(address::proofs::Within::config_within, address::proofs::Within::otp_within, address::proofs::Within::data_within), unfolding(rules::specs::Read::read_bytes))]
fn read_zone(d: Device, f: Fields) -> Reply
    requires { address_fits f ≡ true }
    ensures { result ≡ reply (gives (read_bytes d f)) d }
{
    let k = address::slot_of(f);
    match f.param1 % 4 {
        0 => read_clear(d, &d.config, f),
        1 => read_clear(d, &d.otp, f),
        _ if config::slot_bit(7, d.config, k) => read_encrypted(d, k),
        _ => read_clear(d, &d.data, f),
    }
}

#[tactic(auto, using(rules::proofs::Shapes::read_fits), unfolding(rules::specs::Read::read))]
pub fn read(d: Device, f: Fields, input: &[u8]) -> Reply
    ensures { result ≡ reply (settle (read d f input.now)) d }
{
    if !read_shape(f, input) {
        return replies::said(d, Status::BadShape);
    }
    if !read_free(d, f) {
        return replies::said(d, Status::Refused);
    }
    read_zone(d, f)
}
