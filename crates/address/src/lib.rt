// Where Read and Write go, and what an encrypted one asks of TempKey.
#![tactic(auto)]

ghost use Rattle.std.specs.Prelude.{◌≡◌};
ghost use Rattle.rules.specs.Address.{size, word, slot_of, address_fits, position, encrypts, encrypts_for};

use rules::{Fields, Slot, TempKey, Word};

// Bit 7: 32 bytes, else 4.
pub fn size_of(f: Fields) -> usize
    ensures { result ≡ size f }
{
    if config::param1_bit(7, f) { 32 } else { 4 }
}

// Param2 is a word address.
pub fn word_of(f: Fields) -> Word
    ensures { result ≡ word f }
{
    Word(f.param2)
}

// The slot that the word belongs to.
pub fn slot_of(f: Fields) -> Slot
    ensures { result ≡ slot_of (word f) }
{
    Slot((word_of(f).0 / 8 % 16) as u8)
}

// Configuration word 16 up is 4 bytes only.
#[tactic(auto, using(rules::proofs::Tests::then_true, rules::proofs::Tests::then_false), unfolding(rules::specs::Address::address_fits))]
pub fn address_fits(f: Fields) -> bool
    ensures { result ≡ address_fits f }
{
    match (f.param1 % 4, word_of(f).0) {
        (0 | 1, 0..=15) | (2, 0..=127) => true,
        (0, 16..=21) => !config::param1_bit(7, f),
        _ => false,
    }
}

// The position of the first byte: at 32 bytes the low three bits are ignored.
#[tactic(auto, unfolding(rules::specs::Address::position))]
pub fn position_of(f: Fields) -> usize
    ensures { result ≡ position f }
{
    let at = word_of(f).0 as usize;
    if config::param1_bit(7, f) {
        32 * (at / 8)
    } else {
        4 * at
    }
}

// Valid, GenData 1, CheckFlag 0.
#[tactic(auto, unfolding(rules::specs::Address::encrypts))]
pub fn encrypts(t: TempKey) -> bool
    ensures { result ≡ encrypts t }
{
    t.valid && t.genData && !t.checkFlag
}

// SlotID = a key's number, SourceFlag = CheckMacConfig bit slot/2.
#[tactic(auto, unfolding(rules::specs::Address::encrypts_for))]
pub fn encrypts_for(c: [u8; 88], t: TempKey, by: Slot, k: Slot) -> bool
    ensures { result ≡ encrypts_for c t by k }
{
    t.slotID.0 % 16 == by.0 % 16 && t.sourceFlag == config::check_mac_bit(c, k)
}
