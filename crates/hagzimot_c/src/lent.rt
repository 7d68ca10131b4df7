//! Results in lent memory.
ghost use Rattle.std.specs.Prelude.{◌≡◌, ◌≤◌, ◌<◌, ◌⊎◌, ◌++◌, true, false, length, drop};
ghost use Rattle.hagzimot_c.specs.Exports.{IsLent, HasResults, Fits, lent};

use crate::statuses::MEMORY;
use hagzimot_in_process::relay::Relay;
use std::alloc::Global;
use std::fmt::Display;

/// Copies the bytes to the front of a slice.
fn copy_front(bytes: &[u8], out: &mut [u8])
    requires { length bytes.now ≤ length out.old }
    ensures { out.new ≡ bytes.now ++ drop (length bytes.now) out.old }
{
    out[..bytes.len()].copy_from_slice(bytes);
}

/// Copies the bytes to the front of a slice if they fit, and says how many there are. Returns
/// whether they fit.
#[tactic(auto, using(crate::proofs::Fronts::lent_front, crate::proofs::Fronts::too_long))]
pub(crate) fn copy_out(bytes: &[u8], out: &mut [u8], len: &mut usize) -> bool
    ensures lent { IsLent bytes.now out.new len.new }
    ensures fits { result ≡ true → len.new ≤ length out.new }
    ensures long { result ≡ false → length out.new < len.new }
{
    *len = bytes.len();
    if out.len() < bytes.len() {
        return false;
    }
    copy_front(bytes, out);
    true
}

/// Copies the output and the log of a relay, each if it fits, and says how long they are. Returns
/// whether both fit.
pub(crate) fn copy_results(
    relay: &Relay,
    out: &mut [u8],
    out_len: &mut usize,
    log: &mut [u8],
    log_len: &mut usize,
) -> bool
    ensures lent { HasResults relay.now (lent out.new out_len.new log.new log_len.new) }
    ensures fits { result ≡ true → Fits (lent out.new out_len.new log.new log_len.new) }
    ensures long { result ≡ false → Fits (lent out.new out_len.new log.new log_len.new) → ⊥ }
{
    let fits = copy_out(relay.output(), out, out_len);
    let fits_log = copy_out(relay.log(), log, log_len);
    fits && fits_log
}

/// Copies what is said into a slice, cut if it is too long, and says how long it is. Returns the
/// status, or `MEMORY` if an allocation was refused.
pub(crate) fn tell<T: Display>(
    alloc: Global,
    said: &T,
    status: u32,
    text: &mut [u8],
    len: &mut usize,
) -> u32
    ensures { (result ≡ status) ⊎ (result ≡ 1) }
{
    let Ok(said) = format!(in alloc; "{said}") else {
        return MEMORY;
    };
    let said = said.as_bytes();
    let count = said.len().min(text.len());
    text[..count].copy_from_slice(&said[..count]);
    *len = said.len();
    status
}
