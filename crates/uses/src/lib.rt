// Uses: leading zeros find the bit that a use clears, uses left are the count of ones.
#![tactic(auto)]

ghost use Rattle.std.specs.Prelude.{◌≡◌, [], if◌then◌else◌};
ghost use Rattle.rules.specs.Plan.{store_all};
ghost use Rattle.rules.specs.Uses.{limited, ones_of, uses_left, use_left, first_nonzero, use_at, clear_highest, spend};
ghost use Rattle.rules.specs.Words.{bytes};

use config::slot_bit;
use rules::{Device, Slot};
use stores::store_config;

#[tactic(auto, unfolding(rules::specs::Uses::limited))]
fn is_limited(c: [u8; 88], k: Slot) -> bool
    ensures { result ≡ limited c k }
{
    let i = k.0 % 16;
    (i < 8 || i == 15) && slot_bit(5, c, k)
}

// The ones of LastKeyUse.
#[tactic(auto, using(crate::proofs::Bytes::ones_summed))]
fn last_key_uses(c: [u8; 88]) -> usize
    ensures { result ≡ ones_of (bytes 68 83 c) }
{
    c[68..84].iter().map(|b| b.count_ones() as usize).sum()
}

#[tactic(auto, unfolding(rules::specs::Uses::uses_left))]
fn uses_left(c: [u8; 88], k: Slot) -> usize
    ensures { result ≡ uses_left c k }
{
    let i = k.0 % 16;
    if i == 15 {
        last_key_uses(c)
    } else {
        c[52 + 2 * (i as usize)].count_ones() as usize
    }
}

#[tactic(auto, unfolding(rules::specs::Uses::use_left))]
pub fn use_left(c: [u8; 88], k: Slot) -> bool
    ensures { result ≡ use_left c k }
{
    !is_limited(c, k) || 0 < uses_left(c, k)
}

// The first byte of LastKeyUse that is not zero, its last where all are.
fn first_nonzero(c: [u8; 88]) -> usize
    ensures { result ≡ first_nonzero c 68 15 }
{
    68 + c[68..83].iter().position(|b| *b != 0).unwrap_or(15)
}

// The byte that a slot's next use clears a bit of.
#[tactic(auto, unfolding(rules::specs::Uses::use_at))]
fn use_at(c: [u8; 88], k: Slot) -> usize
    ensures { result ≡ use_at c k }
{
    let i = k.0 % 16;
    if i == 15 {
        first_nonzero(c)
    } else {
        52 + 2 * (i as usize)
    }
}

#[tactic(auto, unfolding(rules::specs::Uses::clear_highest))]
fn clear_highest(b: u8) -> u8
    ensures { result ≡ clear_highest b }
{
    if b == 0 {
        return 0;
    }
    b - (1 << (7 - b.leading_zeros()))
}

// One use of a slot spent, where its uses are limited.
#[tactic(auto, using(rules::proofs::Uses::use_within), unfolding(rules::specs::Uses::spend))]
fn spend(d: Device, k: Slot) -> Device
    ensures { result ≡ store_all d (spend d.config k) }
{
    if is_limited(d.config, k) {
        let at = use_at(d.config, k);
        store_config(d, at, clear_highest(d.config[at]))
    } else {
        d
    }
}

// The use that a command spends where it draws on a slot.
pub fn spend_use(d: Device, k: Slot, drawn: bool) -> Device
    ensures { result ≡ store_all d (if drawn then spend d.config k else []) }
{
    if drawn { spend(d, k) } else { d }
}
