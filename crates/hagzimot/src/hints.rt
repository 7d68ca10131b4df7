//! Hints for an input that is in another form than the options say.

use crate::files::Input;
use capnp_relay_loop::ends::Fault;
use capnp_relay_streams::options::Form;
use capnp_stream_io::adapters::Source;
use capnp_stream_io::traits::BufRead;
use capnp_units::kinds::ErrorKind;

/// The form that the first bytes of an input suggest.
#[derive(Clone, Copy, Debug, PartialEq, Eq)]
pub enum Beginning {
    /// A file that gzip compressed.
    Gzip,
    /// Framed messages: a count of segments below 256. A packed message has such bytes only if it
    /// is empty.
    Framed,
    /// Any other input.
    Other,
}

/// Returns the form that an input seems to have. It is `Other` if the input can't be read, and the
/// next read returns the error.
pub fn beginning_of(source: &mut Source<Input>) -> Beginning {
    match source.fill_buf() {
        Ok([0x1f, 0x8b, 0x08, ..]) => Beginning::Gzip,
        Ok([_, 0, 0, 0, ..]) => Beginning::Framed,
        _ => Beginning::Other,
    }
}

/// Returns what is wrong with an input at a message that can't be read, and what to do. Returns
/// `None` if the input doesn't seem to be in another form.
pub fn hint(form: Form, beginning: Beginning, number: u64, fault: Fault) -> Option<&'static str> {
    let Fault::Framing(kind) = fault else {
        return None;
    };
    let is_first = number == 1;
    match (form, beginning) {
        (_, Beginning::Gzip) if is_first => {
            Some("the input is compressed by gzip (decompress it first, as zcat does)")
        }
        (Form::Packed, Beginning::Framed) => {
            Some("not packed messages (if the input is framed, try --in framed)")
        }
        (Form::Framed, Beginning::Other)
            if is_first
                && matches!(
                    kind,
                    ErrorKind::InvalidNumberOfSegments | ErrorKind::MessageTooLarge
                ) => { Some("not a framed message (if the input is packed, try --in packed)") }
        _ => None,
    }
}
