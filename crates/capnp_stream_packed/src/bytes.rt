//! Single bytes of a source.
ghost use Rattle.std.specs.Prelude.{◌≡◌, ◌↔◌, [], IfSome, IfOk, IfErr, OnErr, IsTrue};
ghost use Rattle.std.specs.Io.KnownBytes.{Keeps};
ghost use Rattle.capnp_units.specs.Errors.{kind_of};
ghost use Rattle.capnp_units.specs.declared.kinds.ErrorKind.{ErrorKind};
ghost use Rattle.capnp_stream_io.specs.Counting.{Counts};
ghost use Rattle.capnp_stream_packed.specs.Parts.{Takes, Refuses, TakesByte, IsEndKind, byte_or};

use capnp_stream_io::traits::{BufRead, Read};
use capnp_units::errors::{Error, Result};
use capnp_units::kinds::ErrorKind;

/// Returns whether no byte is left. Nothing is taken.
pub(crate) fn is_at_end<R: BufRead>(source: &mut R) -> Result<bool>
    ensures at { IfOk result (λ b. IfSome (R.remaining source.old) (λ xs. IsTrue b ↔ (xs ≡ []))) }
    ensures kept { Keeps (R.remaining source.old) (R.remaining source.new) }
    ensures refusal { IfErr result (λ e. e.kind ≡ ErrorKind.Device) }
    ensures count { Counts result (R.failures source.old) (R.failures source.new) }
{
    let shown = source.fill_buf()?;
    Ok(shown.is_empty())
}

/// Returns the next byte, or `None` if no byte is left.
pub(crate) fn next_byte<R: BufRead>(source: &mut R) -> Result<Option<u8>>
    ensures byte { IfOk result (λ o.
        TakesByte (R.remaining source.old) (R.remaining source.new) o) }
    ensures kept { OnErr result (Keeps (R.remaining source.old) (R.remaining source.new)) }
    ensures refusal { IfErr result (λ e. e.kind ≡ ErrorKind.Device) }
    ensures count { Counts result (R.failures source.old) (R.failures source.new) }
{
    let byte = match source.fill_buf()?.first() {
        Some(b) => *b,
        None => return Ok(None),
    };
    source.consume(1);
    Ok(Some(byte))
}

/// Returns the next byte, or is refused with this kind if no byte is left.
pub(crate) fn byte_or<R: BufRead>(source: &mut R, end: ErrorKind) -> Result<u8>
    requires { IsEndKind end }
    ensures byte { IfOk result (λ b.
        Takes (byte_or (kind_of end)) (R.remaining source.old) (R.remaining source.new) b) }
    ensures refused { IfErr result (λ e.
        Refuses (byte_or (kind_of end)) (R.remaining source.old) (R.remaining source.new) e.kind) }
    ensures count { Counts result (R.failures source.old) (R.failures source.new) }
{
    match next_byte(source)? {
        Some(b) => Ok(b),
        None => Err(Error::from(end)),
    }
}
