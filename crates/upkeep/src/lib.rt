// Lock, UpdateExtra and DevRev.
#![tactic(auto)]

ghost use Rattle.std.specs.Prelude.{◌≡◌, ◌%◌, if◌then◌else◌};
ghost use Rattle.rules.specs.Words.{◌is◌};
ghost use Rattle.rules.specs.State.{user_extra_at, selector_at, lock_value_at, lock_config_at};
ghost use Rattle.rules.specs.Plan.{in_config, store, reply, settle};
ghost use Rattle.rules.specs.Upkeep.{of_values, lock_shape, summary, zone_open, lock_free, lock, update_extra_shape, update_extra_free, update_extra, dev_rev_shape, dev_rev};

use rules::{Device, Fields, Reply, Status};

// Bit 7 skips the summary: Param2 is then 0.
#[tactic(auto, using(rules::proofs::Masks::lock_mask), unfolding(rules::specs::Upkeep::lock_shape))]
fn lock_shape(f: Fields, input: &[u8]) -> bool
    ensures { result ≡ lock_shape f input.now }
{
    config::only_bits(0x81, f.param1)
        && (!config::param1_bit(7, f) || f.param2 == 0)
        && input.is_empty()
}

// The check value of the 88 bytes, or of data then OTP.
#[tactic(auto, using(wire::proofs::Laws::check_append), unfolding(rules::specs::Upkeep::summary, wire::specs::Wire::check_value))]
fn summary_of(d: Device, f: Fields) -> u16
    ensures { result ≡ summary d f }
{
    if config::param1_bit(0, f) {
        wire::check_value(wire::check_value(0, &d.data), &d.otp)
    } else {
        wire::check_value(0, &d.config)
    }
}

#[tactic(auto, unfolding(rules::specs::Upkeep::zone_open))]
fn zone_open(c: [u8; 88], f: Fields) -> bool
    ensures { result ≡ zone_open c f }
{
    if config::param1_bit(0, f) {
        !config::values_locked(c) && config::config_locked(c)
    } else {
        !config::config_locked(c)
    }
}

// With bit 7 clear Param2 is the check value, that of the zone before its lock byte is stored.
#[tactic(auto, unfolding(rules::specs::Upkeep::lock_free))]
fn lock_free(d: Device, f: Fields) -> bool
    ensures { result ≡ lock_free d f }
{
    zone_open(d.config, f) && (config::param1_bit(7, f) || summary_of(d, f) == f.param2)
}

// The lock byte becomes 00.
fn locked(d: Device, f: Fields) -> Device
    ensures { result ≡ store d (in_config (if of_values f then lock_value_at else lock_config_at) 0x00) }
{
    let at = if config::param1_bit(0, f) { 86 } else { 87 };
    stores::store_config(d, at, 0x00)
}

#[tactic(auto, unfolding(rules::specs::Upkeep::lock))]
pub fn lock(d: Device, f: Fields, input: &[u8]) -> Reply
    ensures { result ≡ reply (settle (lock d f input.now)) d }
{
    if !lock_shape(f, input) {
        return replies::said(d, Status::BadShape);
    }
    if !lock_free(d, f) {
        return replies::said(d, Status::Refused);
    }
    replies::said(locked(d, f), Status::Done)
}

#[tactic(auto, unfolding(rules::specs::Upkeep::update_extra_shape))]
fn update_extra_shape(f: Fields, input: &[u8]) -> bool
    ensures { result ≡ update_extra_shape f input.now }
{
    f.param1 < 2 && f.param2 / 256 == 0 && input.is_empty()
}

#[tactic(auto, unfolding(rules::specs::Upkeep::update_extra_free))]
fn update_extra_free(c: [u8; 88], f: Fields) -> bool
    ensures { result ≡ update_extra_free c f }
{
    f.param1 != 1 || c[85] == 0 || c[19] == 0
}

// UserExtra or Selector becomes the low byte of Param2.
fn updated(d: Device, f: Fields) -> Device
    ensures { result ≡ store d (in_config (if f.param1 is 1 then selector_at else user_extra_at) (f.param2 % 256)) }
{
    let at = if f.param1 == 1 { 85 } else { 84 };
    stores::store_config(d, at, f.param2.to_le_bytes()[0])
}

#[tactic(auto, unfolding(rules::specs::Upkeep::update_extra))]
pub fn update_extra(d: Device, f: Fields, input: &[u8]) -> Reply
    ensures { result ≡ reply (settle (update_extra d f input.now)) d }
{
    if !update_extra_shape(f, input) {
        return replies::said(d, Status::BadShape);
    }
    if !update_extra_free(d.config, f) {
        return replies::said(d, Status::Refused);
    }
    replies::said(updated(d, f), Status::Done)
}

#[tactic(auto, unfolding(rules::specs::Upkeep::dev_rev_shape))]
fn dev_rev_shape(f: Fields, input: &[u8]) -> bool
    ensures { result ≡ dev_rev_shape f input.now }
{
    f.param1 == 0 && f.param2 == 0 && input.is_empty()
}

#[tactic(auto, using(rows::proofs::Row::row_there, rules::proofs::Rows::length_part), unfolding(rules::specs::Upkeep::dev_rev))]
pub fn dev_rev(d: Device, f: Fields, input: &[u8]) -> Reply
    ensures { result ≡ reply (settle (dev_rev d f input.now)) d }
{
    if !dev_rev_shape(f, input) {
        return replies::said(d, Status::BadShape);
    }
    replies::ended(d, 4, rows::row_of(&d.config, 4, 4))
}
