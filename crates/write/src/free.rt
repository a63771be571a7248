// What Write asks before it acts: its shape, and its conditions before the digest.
ghost use Rattle.std.specs.Prelude.{◌≡◌, not, ◌&&◌, ◌||◌};
ghost use Rattle.rules.specs.Words.{bit};
ghost use Rattle.rules.specs.State.{is_secret, write_config_bit};
ghost use Rattle.rules.specs.Write.{slot_encrypted, write_shape, config_write_free, encrypted, unlocked_write_free, slot_write_free, locked_write_free, write_free};

use rules::{Device, Fields, Slot};

// Data 4, 32, or 64 (value, MAC), the last two with bit 7.
#[tactic(auto, using(rules::proofs::Masks::write_mask), unfolding(rules::specs::Write::write_shape))]
pub fn write_shape(f: Fields, input: &[u8]) -> bool
    ensures { result ≡ write_shape f input.now }
{
    if !config::only_bits(0xC3, f.param1) || !address::address_fits(f) {
        return false;
    }
    match input.len() {
        4 => !config::param1_bit(7, f),
        32 | 64 => config::param1_bit(7, f),
        _ => false,
    }
}

#[tactic(auto, using(address::proofs::Within::size_small, address::proofs::Within::position_small), unfolding(rules::specs::Write::config_write_free))]
fn config_write_free(c: [u8; 88], f: Fields, input: &[u8]) -> bool
    ensures { result ≡ config_write_free c f input.now }
{
    let at = address::position_of(f);
    !config::config_locked(c)
        && !config::param1_bit(6, f)
        && input.len() != 64
        && at >= 16
        && at + address::size_of(f) <= 84
}

fn slot_encrypted(c: [u8; 88], f: Fields) -> bool
    ensures { result ≡ slot_encrypted c f }
{
    config::slot_bit(14, c, address::slot_of(f))
}

#[tactic(auto, unfolding(rules::specs::Write::encrypted))]
pub fn is_encrypted(c: [u8; 88], f: Fields) -> bool
    ensures { result ≡ encrypted c f }
{
    // The zone is a number, as the definition `zone` has it: at 3, which is no zone, `encrypted` answers as at 1.
    let zone = f.param1 % 4;
    if zone == 0 {
        return false;
    }
    if config::values_locked(c) {
        zone == 2 && slot_encrypted(c, f)
    } else {
        config::param1_bit(6, f)
    }
}

#[tactic(auto, unfolding(rules::specs::Write::unlocked_write_free))]
fn unlocked_write_free(d: Device, f: Fields) -> bool
    ensures { result ≡ unlocked_write_free d f }
{
    config::param1_bit(7, f) && (!config::param1_bit(6, f) || address::encrypts(d.tempKey))
}

// A slot takes a clear write: bits 15 and 13 clear, and 4 bytes only if IsSecret 0.
fn clear_write_free(c: [u8; 88], f: Fields, k: Slot) -> bool
    ensures { result ≡ (not (write_config_bit 15 c k) && not (write_config_bit 13 c k) && (bit 7 f.param1 || not (is_secret c k))) }
{
    !config::slot_bit(15, c, k)
        && !config::slot_bit(13, c, k)
        && (config::param1_bit(7, f) || !config::slot_bit(7, c, k))
}

#[tactic(auto, unfolding(rules::specs::Write::slot_write_free))]
fn slot_write_free(d: Device, f: Fields) -> bool
    ensures { result ≡ slot_write_free d f }
{
    let c = d.config;
    let k = address::slot_of(f);
    if slot_encrypted(c, f) {
        address::encrypts(d.tempKey)
            && address::encrypts_for(c, d.tempKey, config::write_key(c, k), k)
    } else {
        clear_write_free(c, f, k)
    }
}

#[tactic(auto, unfolding(rules::specs::Write::locked_write_free))]
fn locked_write_free(d: Device, f: Fields) -> bool
    ensures { result ≡ locked_write_free d f }
{
    if config::param1_bit(6, f) {
        return false;
    }
    if f.param1 % 4 == 1 {
        d.config[18] == 0x55
    } else {
        slot_write_free(d, f)
    }
}

// Outside the configuration a MAC is present exactly when encrypted.
#[tactic(auto, unfolding(rules::specs::Write::write_free))]
pub fn write_free(d: Device, f: Fields, input: &[u8]) -> bool
    ensures { result ≡ write_free d f input.now }
{
    let c = d.config;
    if f.param1 % 4 == 0 {
        return config_write_free(c, f, input);
    }
    if !config::config_locked(c) || (input.len() == 64) != is_encrypted(c, f) {
        return false;
    }
    if config::values_locked(c) {
        locked_write_free(d, f)
    } else {
        unlocked_write_free(d, f)
    }
}
