//! Numbers in bytes, stored exclusive-or'ed with a default.

ghost use Rattle.std.specs.Prelude.{◌≤◌, length};

use capnp_units::primitive::{Mask, Primitive, Zero};
use std::test::Fail;

/// Writes a number that is stored exclusive-or'ed with a default, and reads it again; zero reads as
/// its default.
fn comes_back<N: Primitive + Zero + Mask + PartialEq>(
    bytes: &mut [u8],
    value: N,
    default: N::T,
) -> bool
    requires { N.BYTES ≤ length bytes.old }
{
    N::set(bytes, N::mask(value, default));
    let same = N::mask(N::get(bytes), default) == value;
    N::set(bytes, N::mask(N::zero(), default));
    same && N::mask(N::get(bytes), default) == N::zero()
}

#[test]
fn numbers_come_back(rt: HostRuntime) -> Result<(), Fail> {
    let mut bytes = [0xff; 8];
    assert!(rt; comes_back(&mut bytes, 200u8, 3));
    assert!(rt; comes_back(&mut bytes, -100i8, -1));
    assert!(rt; comes_back(&mut bytes, 60_000u16, 3));
    assert!(rt; comes_back(&mut bytes, -30_000i16, 5));
    assert!(rt; comes_back(&mut bytes, 4_000_000_000u32, 3));
    assert!(rt; comes_back(&mut bytes, -2_000_000_000i32, 7));
    assert!(rt; comes_back(&mut bytes, u64::MAX, 3));
    assert!(rt; comes_back(&mut bytes, i64::MIN, -2));
    Ok(())
}

#[test]
fn bytes_have_the_lowest_first(rt: HostRuntime) -> Result<(), Fail> {
    let mut bytes = [1, 2, 3, 4, 5, 6, 7, 0x88];
    assert!(rt; u32::get(&bytes) == 0x0403_0201);
    assert!(rt; i64::get(&bytes) == -0x77f8_f9fa_fbfc_fdff);
    i16::set(&mut bytes[2..], -2);
    assert!(rt; bytes == [1, 2, 0xfe, 0xff, 5, 6, 7, 0x88]);
    assert!(rt; u8::mask(0b1100, 0b1010) == 0b0110);
    Ok(())
}
