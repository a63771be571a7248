// The configuration's locks and SlotConfig, and the bits of a field.
#![tactic(auto)]

ghost use Rattle.std.specs.Prelude.{◌≡◌};
ghost use Rattle.std.specs.Int.Bits.{bit_and};
ghost use Rattle.rules.specs.Words.{◌is◌, bit};
ghost use Rattle.rules.specs.State.{key, slot_config, write_key, read_key, check_mac_bit, config_locked, values_locked, both_locked};

use rules::{Fields, Slot};

// The key: the low four bits of Param2.
pub fn key_of(f: Fields) -> Slot
    ensures { result ≡ key f }
{
    Slot((f.param2 % 16) as u8)
}

// Whether a field has no bit outside a mask.
pub fn only_bits(mask: u8, x: u8) -> bool
    ensures { result ≡ bit_and x mask is x }
{
    x & mask == x
}

#[tactic(auto, unfolding(rules::specs::State::slot_config))]
fn slot_config(c: [u8; 88], k: Slot) -> u16
    ensures { result ≡ slot_config c k }
{
    let at = 20 + 2 * (k.0 as usize % 16);
    u16::from_le_bytes([c[at], c[at + 1]])
}

// A field has at most so many bits.
const BITS: u16 = 16;

// Bit n of a field; there is none above 15.
fn bit(n: u16, x: u16) -> bool
    ensures { result ≡ bit n x }
{
    n < BITS && (x >> n) % 2 == 1
}

// Bit n of Param1.
pub fn param1_bit(n: u16, f: Fields) -> bool
    ensures { result ≡ bit n f.param1 }
{
    bit(n, f.param1 as u16)
}

// Bit n of a slot's SlotConfig.
pub fn slot_bit(n: u16, c: [u8; 88], k: Slot) -> bool
    ensures { result ≡ bit n (slot_config c k) }
{
    bit(n, slot_config(c, k))
}

pub fn write_key(c: [u8; 88], k: Slot) -> Slot
    ensures { result ≡ write_key c k }
{
    Slot((slot_config(c, k) / 256 % 16) as u8)
}

pub fn read_key(c: [u8; 88], k: Slot) -> Slot
    ensures { result ≡ read_key c k }
{
    Slot((slot_config(c, k) % 16) as u8)
}

// CheckMacConfig bit slot/2.
pub fn check_mac_bit(c: [u8; 88], k: Slot) -> bool
    ensures { result ≡ check_mac_bit c k }
{
    let n = k.0 % 16 / 2;
    bit(n as u16, c[17] as u16)
}

pub fn config_locked(c: [u8; 88]) -> bool
    ensures { result ≡ config_locked c }
{
    c[87] != 0x55
}

pub fn values_locked(c: [u8; 88]) -> bool
    ensures { result ≡ values_locked c }
{
    c[86] != 0x55
}

pub fn both_locked(c: [u8; 88]) -> bool
    ensures { result ≡ both_locked c }
{
    config_locked(c) && values_locked(c)
}
