// Replies that most commands end in.
#![tactic(auto)]

ghost use Rattle.std.specs.Prelude.{◌≡◌, ◌∷◌};
ghost use Rattle.rules.specs.Words.{zeros};
ghost use Rattle.rules.specs.State.{status_byte, emptied, taken};
ghost use Rattle.rules.specs.Plan.{with_temp_key, reply, says};

use rules::{Device, Reply, Slot, Status, TempKey};

// A function, and no `as u8` at each call, since docs/PROMISES.md names its promise.
pub fn status_byte(s: Status) -> u8
    ensures { result ≡ status_byte s }
{
    s as u8
}

pub fn emptied_key() -> TempKey
    ensures { result ≡ emptied }
{
    TempKey {
        bytes: [0; 32],
        slotID: Slot(0),
        sourceFlag: false,
        genData: false,
        checkFlag: false,
        valid: false,
    }
}

// 32 bytes taken into TempKey, with a SourceFlag.
pub fn taken_key(bytes: [u8; 32], source: bool) -> TempKey
    ensures { result ≡ taken bytes source }
{
    TempKey {
        bytes,
        sourceFlag: source,
        valid: true,
        ..emptied_key()
    }
}

// TempKey emptied, and an answer of the first len of the bytes.
pub fn ended(d: Device, len: usize, bytes: [u8; 32]) -> Reply
    ensures { result ≡ record { device = with_temp_key emptied d; len = len; bytes = bytes } }
{
    let device = Device {
        tempKey: emptied_key(),
        ..d
    };
    Reply { device, len, bytes }
}

// A TempKey left behind, and a status.
pub fn answered(d: Device, key: TempKey, s: Status) -> Reply
    ensures { result ≡ record { device = with_temp_key key d; len = 1; bytes = status_byte s ∷ zeros 31 } }
{
    let device = Device { tempKey: key, ..d };
    let mut bytes = [0; 32];
    bytes[0] = status_byte(s);
    Reply {
        device,
        len: 1,
        bytes,
    }
}

// TempKey emptied, and a status. Every command says 03 and then 0F by it, in two `if`s (the status order): not by `?`, since its
// promise, `reply (settle ..)`, gives a Reply for a refusal too; not by one function that takes what comes after as a closure, which
// reads no plainer.
pub fn said(d: Device, s: Status) -> Reply
    ensures { result ≡ reply (says s) d }
{
    answered(d, emptied_key(), s)
}
