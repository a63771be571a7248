// Nonce and Random.
#![tactic(auto)]

ghost use Rattle.std.specs.Prelude.{◌≡◌};
ghost use Rattle.rules.specs.Plan.{reply, settle};
ghost use Rattle.rules.specs.Nonce.{used_random, nonce_shape, nonce, random_shape, random};

use rules::{Device, Fields, Reply, Status};

// FF FF 00 00 eight times. A call of std::array::from_fn in its place is no plainer, and no constant.
const UNLOCKED: [u8; 32] = [
    0xFF, 0xFF, 0x00, 0x00, 0xFF, 0xFF, 0x00, 0x00, 0xFF, 0xFF, 0x00, 0x00, 0xFF, 0xFF, 0x00, 0x00,
    0xFF, 0xFF, 0x00, 0x00, 0xFF, 0xFF, 0x00, 0x00, 0xFF, 0xFF, 0x00, 0x00, 0xFF, 0xFF, 0x00, 0x00,
];

// The supplied random counts only with configuration locked.
#[tactic(auto, unfolding(rules::specs::Nonce::used_random, rules::specs::Nonce::four_times))]
fn used_random(c: [u8; 88], supplied: [u8; 32]) -> [u8; 32]
    ensures { result ≡ used_random c supplied }
{
    if config::config_locked(c) {
        supplied
    } else {
        UNLOCKED
    }
}

// Param1 0 or 1 and 20 bytes in, or 3 and 32 in; Param2 is zero.
#[tactic(auto, unfolding(rules::specs::Nonce::nonce_shape))]
fn nonce_shape(f: Fields, input: &[u8]) -> bool
    ensures { result ≡ nonce_shape f input.now }
{
    matches!((f.param1, input.len()), (0 | 1, 20) | (3, 32)) && f.param2 == 0
}

#[tactic(auto, unfolding(rules::specs::Nonce::nonce))]
pub fn nonce(d: Device, f: Fields, input: &[u8], random: [u8; 32]) -> Reply
    ensures { result ≡ reply (settle (nonce d f input.now random)) d }
{
    if !nonce_shape(f, input) {
        return replies::said(d, Status::BadShape);
    }
    let row = rows::row_of(input, 0, 32);
    if f.param1 == 3 {
        return replies::answered(d, replies::taken_key(row, true), Status::Done);
    }
    let answer = used_random(d.config, random);
    let digest = messages::nonce_digest(answer, row, f);
    let device = Device {
        tempKey: replies::taken_key(digest, false),
        ..d
    };
    Reply {
        device,
        len: 32,
        bytes: answer,
    }
}

#[tactic(auto, unfolding(rules::specs::Nonce::random_shape))]
fn random_shape(f: Fields, input: &[u8]) -> bool
    ensures { result ≡ random_shape f input.now }
{
    f.param1 < 2 && f.param2 == 0 && input.is_empty()
}

#[tactic(auto, unfolding(rules::specs::Nonce::random))]
pub fn random(d: Device, f: Fields, input: &[u8], supplied: [u8; 32]) -> Reply
    ensures { result ≡ reply (settle (random d f input.now supplied)) d }
{
    if !random_shape(f, input) {
        return replies::said(d, Status::BadShape);
    }
    replies::ended(d, 32, used_random(d.config, supplied))
}
