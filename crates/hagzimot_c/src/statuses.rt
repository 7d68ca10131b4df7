//! The statuses that exports return, and what their plain arguments mean.
ghost use Rattle.std.specs.Prelude.{◌≡◌, ◌≢◌, ◌<◌, ◌≤◌, ◌⊎◌, true, false, IsOk, IfSome, IfNone, OnSome, option_copied};
ghost use Rattle.hagzimot_in_process.specs.declared.frames.FrameFault.{FrameFault};
ghost use Rattle.hagzimot_c.specs.Exports.{word_of, form_if, forms_in};
ghost use Rattle.hagzimot_c.specs.Statuses.{IsCut, EndsBy, status_of, show_status_of};

use capnp_relay_loop::ends::{Counts, Fault, RelayFault};
use capnp_relay_show::show::ShowFault;
use capnp_relay_streams::options::Form;
use hagzimot_in_process::frames::FrameFault;
use hagzimot_in_process::relay::Forms;

pub(crate) const OK: u32 = 0;

pub(crate) const MEMORY: u32 = 1;

pub(crate) const CLOSED: u32 = 2;

pub(crate) const OPEN: u32 = 3;

pub(crate) const ROOM: u32 = 4;

pub(crate) const REFUSED: u32 = 5;

pub(crate) const FRAMING: u32 = 6;

pub(crate) const VALUE: u32 = 7;

pub(crate) const SIZE: u32 = 8;

pub(crate) const NO: u32 = 9;
/// A flag is unknown, or the root's name isn't UTF-8.
pub(crate) const FORM: u32 = 10;

/// The most that flags add up to: 1 for packed input, 2 for packed output, 4 for messages as built.
const ALL_FLAGS: u32 = 7;

/// Returns a form of messages.
fn form_of(is_packed: bool) -> Form
    ensures { result ≡ form_if is_packed }
{
    if is_packed {
        Form::Packed
    } else {
        Form::Framed
    }
}

/// Returns the forms that flags name; `None` if a flag is unknown.
pub(crate) fn forms_of(flags: u32) -> Option<Forms>
    ensures forms { IfSome result (λ forms. forms ≡ forms_in flags) }
    ensures known { OnSome result (flags ≤ 7) }
    ensures unknown { IfNone result (7 < flags) }
{
    if flags > ALL_FLAGS {
        return None;
    }
    Some(Forms {
        input: form_of(flags % 2 == 1),
        output: form_of(flags / 2 % 2 == 1),
        is_plain: flags / 4 % 2 == 1,
    })
}

/// Returns the word that names a root; empty bytes are not a word. `None` if they aren't UTF-8.
pub(crate) fn root_word(bytes: &[u8]) -> Option<Option<&str>>
    ensures { IfSome result (λ word. option_copied word ≡ word_of bytes.now) }
{
    if bytes.is_empty() {
        return Some(None);
    }
    match str::from_utf8(bytes) {
        Ok(word) => Some(Some(word)),
        Err(_) => None,
    }
}

/// Returns the status of a fault of a run.
fn fault_status(fault: Fault) -> u32
    ensures { result ≡ status_of fault }
{
    match fault {
        Fault::Framing(_) => FRAMING,
        Fault::Size => SIZE,
        // Memory has no devices that fail.
        Fault::Memory | Fault::Source | Fault::Out | Fault::Log => MEMORY,
    }
}

/// Returns the status of a run whose output and log fit into lent memory, or don't.
pub(crate) fn relay_status(end: Result<Counts, RelayFault>, fits: bool) -> u32
    ensures ok { result ≡ 0 → IsOk end × (fits ≡ true) }
    ensures room { result ≡ 4 → IsOk end × (fits ≡ false) }
    ensures cut { result ≡ 6 → IsCut end }
    ensures stopped { result ≢ 0 → result ≢ 4 → EndsBy result end }
{
    match end {
        Err(e) => fault_status(e.fault),
        Ok(_) if fits => OK,
        Ok(_) => ROOM,
    }
}

/// Returns the status of a message that isn't shown.
pub(crate) fn show_status(fault: ShowFault) -> u32
    ensures { result ≡ show_status_of fault }
{
    match fault {
        ShowFault::Framing(_) => FRAMING,
        ShowFault::Value | ShowFault::Root | ShowFault::Unreadable => VALUE,
        ShowFault::Memory => MEMORY,
        ShowFault::Size => SIZE,
    }
}

/// Returns the status of a message that has no canonical form, or isn't looked at.
pub(crate) fn frame_status(fault: FrameFault) -> u32
    ensures done { (result ≢ 0) × (result ≢ 9) }
    ensures framing { result ≡ 6 → fault ≡ FrameFault.Framing }
    ensures value { result ≡ 7 → fault ≡ FrameFault.Value }
    ensures room { result ≡ 4 → fault ≡ FrameFault.Room }
{
    match fault {
        FrameFault::Framing => FRAMING,
        FrameFault::Value => VALUE,
        FrameFault::Room => ROOM,
    }
}
