// CheckMac.
#![tactic(auto)]

ghost use Rattle.std.specs.Prelude.{◌≡◌, length};
ghost use Rattle.rules.specs.Words.{equal};
ghost use Rattle.rules.specs.Plan.{reply, settle};
ghost use Rattle.rules.specs.CheckMac.{check_mac_shape, check_mac_temp_key, check_mac_slot, check_mac_free, check_mac_digest, response, copy_target, copy_holds, check_mac_key, check_mac_status, check_mac};

use rules::{Device, Fields, Reply, Slot, Status, TempKey};

#[tactic(auto, using(rules::proofs::Masks::check_mac_mask), unfolding(rules::specs::CheckMac::check_mac_shape))]
fn check_mac_shape(f: Fields, input: &[u8]) -> bool
    ensures { result ≡ check_mac_shape f input.now }
{
    config::only_bits(0x27, f.param1) && input.len() == 77
}

#[tactic(auto, unfolding(rules::specs::CheckMac::check_mac_temp_key))]
fn check_mac_temp_key(t: TempKey, f: Fields) -> bool
    ensures { result ≡ check_mac_temp_key t f }
{
    !mac::uses_temp_key(f) || (t.valid && t.sourceFlag == config::param1_bit(2, f))
}

#[tactic(auto, unfolding(rules::specs::CheckMac::check_mac_slot))]
fn check_mac_slot(c: [u8; 88], f: Fields) -> bool
    ensures { result ≡ check_mac_slot c f }
{
    !mac::draws_key(f) || uses::use_left(c, config::key_of(f))
}

// Beside mac's `mac_free`, since the document has both, each with two conditions of its own.
#[tactic(auto, unfolding(rules::specs::CheckMac::check_mac_free))]
fn check_mac_free(d: Device, f: Fields) -> bool
    ensures { result ≡ check_mac_free d f }
{
    config::both_locked(d.config) && check_mac_temp_key(d.tempKey, f) && check_mac_slot(d.config, f)
}

#[tactic(auto, using(rows::proofs::Row::row_whole, crate::proofs::Sent::other_sent), unfolding(rules::specs::CheckMac::check_mac_digest))]
fn check_mac_digest(d: Device, f: Fields, input: &[u8]) -> [u8; 32]
    requires { length input.now ≡ 77 }
    ensures { result ≡ check_mac_digest d f input.now }
{
    let first = mac::first_row(d, f);
    let second = mac::second_row(d, f, rows::row_of(input, 0, 32));
    let other = rows::row_of(input, 64, 13);
    messages::check_mac_digest(first, second, f, other, d.otp, d.config)
}

// Whether the digest equals the response.
fn check_mac_equal(d: Device, f: Fields, input: &[u8]) -> bool
    requires { length input.now ≡ 77 }
    ensures { result ≡ equal (check_mac_digest d f input.now) (response input.now) }
{
    rows::equal_rows(&check_mac_digest(d, f, input), &input[32..64])
}

fn copy_target(f: Fields) -> Slot
    ensures { result ≡ copy_target f }
{
    Slot(config::key_of(f).0 / 2 * 2 + 1)
}

#[tactic(auto, unfolding(rules::specs::CheckMac::copy_holds))]
fn copy_holds(c: [u8; 88], f: Fields) -> bool
    ensures { result ≡ copy_holds c f }
{
    let k = copy_target(f);
    matches!(f.param1, 0x01 | 0x05)
        && config::read_key(c, k).0 == 0
        && config::check_mac_bit(c, k) == config::param1_bit(2, f)
}

// TempKey after a CheckMac: the target where it copies, else empty.
#[tactic(auto, unfolding(rules::specs::CheckMac::check_mac_key))]
fn check_mac_key(d: Device, f: Fields, same: bool) -> TempKey
    ensures { result ≡ check_mac_key d f same }
{
    if same && copy_holds(d.config, f) {
        replies::taken_key(rows::slot_bytes(d, copy_target(f)), true)
    } else {
        replies::emptied_key()
    }
}

#[tactic(auto, unfolding(rules::specs::CheckMac::check_mac_status))]
fn check_mac_status(same: bool) -> Status
    ensures { result ≡ check_mac_status same }
{
    if same { Status::Done } else { Status::Unequal }
}

#[tactic(auto, unfolding(rules::specs::CheckMac::check_mac, rules::specs::CheckMac::check_mac_shape, rules::specs::CheckMac::check_mac_effect, rules::specs::Mac::key_spent))]
pub fn check_mac(d: Device, f: Fields, input: &[u8]) -> Reply
    ensures { result ≡ reply (settle (check_mac d f input.now)) d }
{
    if !check_mac_shape(f, input) {
        return replies::said(d, Status::BadShape);
    }
    if !check_mac_free(d, f) {
        return replies::said(d, Status::Refused);
    }
    let same = check_mac_equal(d, f, input);
    let key = check_mac_key(d, f, same);
    let spent = uses::spend_use(d, config::key_of(f), mac::draws_key(f));
    replies::answered(spent, key, check_mac_status(same))
}
