// A fresh state from an image.
ghost use Rattle.std.specs.Prelude.{◌≡◌, length};
ghost use Rattle.rules.specs.State.{device_from};
ghost use Rattle.token.specs.Outcome.{fresh_of};

use crate::Token;
use rules::{Device, Number, Power};

// A fresh state and its number. No Result: with number 4 too there is a state (`fresh_of`).
#[derive(Clone, Copy)]
pub struct Made {
    pub token: Token,
    pub number: Number,
}

// A device from the bytes of an image: configuration, OTP, data.
fn device_from(image: &[u8]) -> Device
    requires { length image.now ≡ 664 }
    ensures { result ≡ device_from image.now }
{
    Device {
        config: *image[0..88].as_array().unwrap(),
        otp: *image[88..152].as_array().unwrap(),
        data: *image[152..664].as_array().unwrap(),
        tempKey: replies::emptied_key(),
    }
}

// Number 4, and the 664 zeros' state, for any other length.
#[tactic(auto, unfolding(crate::specs::Outcome::fresh_of))]
pub fn fresh(image: &[u8]) -> Made
    ensures { result ≡ fresh_of image.now }
{
    let (device, number) = if image.len() == 664 {
        (device_from(image), Number::Answered)
    } else {
        (device_from(&[0; 664]), Number::WrongImage)
    };
    Made {
        token: Token {
            device,
            power: Power::Asleep,
        },
        number,
    }
}
