// DeriveKey.
#![tactic(auto)]

ghost use Rattle.std.specs.Prelude.{◌≡◌};
ghost use Rattle.rules.specs.Words.{◌⇒◌, equal};
ghost use Rattle.rules.specs.State.{key, write_config_bit};
ghost use Rattle.rules.specs.Plan.{store_all, reply, settle};
ghost use Rattle.rules.specs.DeriveKey.{derive_key_shape, parent, from_parent, asks_mac, source, parent_drawn, derive_key_temp_key, derive_key_slots, derive_key_free, derive_key_mac, new_target, refilled, derive_key_stores, derive_key};

use rules::{Device, Fields, Reply, Slot, Status, TempKey};

#[tactic(auto, using(rules::proofs::Masks::derive_key_mask), unfolding(rules::specs::DeriveKey::derive_key_shape))]
fn derive_key_shape(f: Fields, input: &[u8]) -> bool
    ensures { result ≡ derive_key_shape f input.now }
{
    config::only_bits(0x04, f.param1) && matches!(input.len(), 0 | 32)
}

// Bit n of the target's SlotConfig; the target is the key.
fn target_bit(n: u16, c: [u8; 88], f: Fields) -> bool
    ensures { result ≡ write_config_bit n c (key f) }
{
    config::slot_bit(n, c, config::key_of(f))
}

fn from_parent(c: [u8; 88], f: Fields) -> bool
    ensures { result ≡ from_parent c f }
{
    target_bit(12, c, f)
}

fn asks_mac(c: [u8; 88], f: Fields) -> bool
    ensures { result ≡ asks_mac c f }
{
    target_bit(15, c, f)
}

// The parent is the target's WriteKey.
fn parent_of(c: [u8; 88], f: Fields) -> Slot
    ensures { result ≡ parent c f }
{
    config::write_key(c, config::key_of(f))
}

fn parent_drawn(c: [u8; 88], f: Fields) -> bool
    ensures { result ≡ parent_drawn c f }
{
    from_parent(c, f) || asks_mac(c, f)
}

// Source is the parent if bit 12, else the target.
#[tactic(auto, unfolding(rules::specs::DeriveKey::source))]
fn source_of(c: [u8; 88], f: Fields) -> Slot
    ensures { result ≡ source c f }
{
    if from_parent(c, f) {
        parent_of(c, f)
    } else {
        config::key_of(f)
    }
}

// Valid, GenData 0, CheckFlag 0, SourceFlag = bit 2.
#[tactic(auto, unfolding(rules::specs::DeriveKey::derive_key_temp_key))]
fn derive_key_temp_key(t: TempKey, f: Fields) -> bool
    ensures { result ≡ derive_key_temp_key t f }
{
    t.valid && !t.genData && !t.checkFlag && t.sourceFlag == config::param1_bit(2, f)
}

// Drawn slots: CheckOnly 0; the parent, if drawn, has a use left.
#[tactic(auto, unfolding(rules::specs::DeriveKey::derive_key_slots))]
fn derive_key_slots(c: [u8; 88], f: Fields) -> bool
    ensures { result ≡ derive_key_slots c f }
{
    let p = parent_of(c, f);
    !config::slot_bit(4, c, source_of(c, f))
        && (!parent_drawn(c, f) || (!config::slot_bit(4, c, p) && uses::use_left(c, p)))
}

// Both locks; target bit 13; TempKey; a MAC exactly if bit 15; the drawn slots.
#[tactic(auto, unfolding(rules::specs::DeriveKey::derive_key_free))]
fn derive_key_free(d: Device, f: Fields, input: &[u8]) -> bool
    ensures { result ≡ derive_key_free d f input.now }
{
    config::both_locked(d.config)
        && target_bit(13, d.config, f)
        && derive_key_temp_key(d.tempKey, f)
        && (input.len() == 32) == asks_mac(d.config, f)
        && derive_key_slots(d.config, f)
}

#[tactic(auto, unfolding(rules::specs::DeriveKey::derive_key_mac))]
fn derive_key_mac(d: Device, f: Fields) -> [u8; 32]
    ensures { result ≡ derive_key_mac d f }
{
    let parent = rows::slot_bytes(d, parent_of(d.config, f));
    messages::parent_digest(parent, f, d.config)
}

// Whether the MAC, where one is asked for, is right.
fn mac_right(d: Device, f: Fields, input: &[u8]) -> bool
    ensures { result ≡ (asks_mac d.config f ⇒ equal (derive_key_mac d f) input.now) }
{
    !asks_mac(d.config, f) || rows::equal_rows(&derive_key_mac(d, f), input)
}

#[tactic(auto, unfolding(rules::specs::DeriveKey::new_target))]
fn new_target(d: Device, f: Fields) -> [u8; 32]
    ensures { result ≡ new_target d f }
{
    let source = rows::slot_bytes(d, source_of(d.config, f));
    let header = messages::header_of(0x1C, f);
    messages::layout96_digest(source, header, d.config, d.tempKey.bytes)
}

// Slots 0-7: UseFlag FF, UpdateCount plus one, 255 going to 0; `c` is the configuration from before the command.
#[tactic(auto, unfolding(rules::specs::DeriveKey::refilled))]
fn refill(d: Device, c: [u8; 88], k: Slot) -> Device
    ensures { result ≡ store_all d (refilled c k) }
{
    let i = (k.0 % 16) as usize;
    if i < 8 {
        let count = c[53 + 2 * i].wrapping_add(1);
        let filled = stores::store_config(d, 52 + 2 * i, 0xFF);
        stores::store_config(filled, 53 + 2 * i, count)
    } else {
        d
    }
}

// The parent's use, then the new target, then the refill, each of what the device held before the command.
#[tactic(auto, using(rules::proofs::Stores::stored_behind), unfolding(rules::specs::DeriveKey::derive_key_stores))]
fn derive_key_stores(d: Device, f: Fields) -> Device
    ensures { result ≡ store_all d (derive_key_stores d f) }
{
    let c = d.config;
    let k = config::key_of(f);
    let row = new_target(d, f);
    let spent = uses::spend_use(d, parent_of(c, f), parent_drawn(c, f));
    let stored = stores::store_slot(spent, k, row);
    refill(stored, c, k)
}

#[tactic(auto, unfolding(rules::specs::DeriveKey::derive_key, rules::specs::DeriveKey::derived))]
pub fn derive_key(d: Device, f: Fields, input: &[u8]) -> Reply
    ensures { result ≡ reply (settle (derive_key d f input.now)) d }
{
    if !derive_key_shape(f, input) {
        return replies::said(d, Status::BadShape);
    }
    if !derive_key_free(d, f, input) || !mac_right(d, f, input) {
        return replies::said(d, Status::Refused);
    }
    replies::said(derive_key_stores(d, f), Status::Done)
}
