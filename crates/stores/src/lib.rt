// Bytes stored in a zone, one after the other; a byte beyond the zone stores nothing.
#![tactic(auto)]

ghost use Rattle.std.specs.Prelude.{◌≡◌, ◌*◌};
ghost use Rattle.std.proofs.lemmas.List.Edits.{sets};
ghost use Rattle.rules.specs.State.{index};
ghost use Rattle.rules.specs.Plan.{in_config, in_otp, in_data, store, store_all, upwards};

use rows::room;
use rules::{Device, Slot};

// A row laid over a zone from a position on, as many of its bytes as fit.
#[tactic(auto, using(rows::proofs::Row::fitting_min))]
fn lay(zone: &mut [u8], at: usize, row: &[u8])
    ensures { zone.new ≡ sets zone.old at row.now }
{
    let n = room(zone.len(), at, row.len());
    let from = at.min(zone.len());
    zone[from..from + n].copy_from_slice(&row[..n]);
}

// One byte of the configuration.
pub fn store_config(d: Device, at: usize, b: u8) -> Device
    ensures { result ≡ store d (in_config at b) }
{
    let mut next = d;
    if at < 88 {
        next.config[at] = b;
    }
    next
}

// A zone's three lines over `lay`, for each of the zones: their promises name the zone (`in_config`, `in_otp`, `in_data`), and take
// device, place and row one by one (`upwards`).
pub fn store_config_row(d: Device, at: usize, row: &[u8]) -> Device
    ensures { result ≡ store_all d (upwards in_config at row.now) }
{
    let mut next = d;
    lay(&mut next.config, at, row);
    next
}

pub fn store_otp_row(d: Device, at: usize, row: &[u8]) -> Device
    ensures { result ≡ store_all d (upwards in_otp at row.now) }
{
    let mut next = d;
    lay(&mut next.otp, at, row);
    next
}

pub fn store_data_row(d: Device, at: usize, row: &[u8]) -> Device
    ensures { result ≡ store_all d (upwards in_data at row.now) }
{
    let mut next = d;
    lay(&mut next.data, at, row);
    next
}

// The 32 bytes of a slot.
pub fn store_slot(d: Device, k: Slot, row: [u8; 32]) -> Device
    ensures { result ≡ store_all d (upwards in_data (32 * index k) row) }
{
    store_data_row(d, 32 * ((k.0 % 16) as usize), &row)
}
