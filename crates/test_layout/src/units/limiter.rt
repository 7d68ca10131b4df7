//! The words that a limit grants.

use capnp_units::kinds::ErrorKind;
use capnp_units::limiter::ReadLimiter;
use std::test::Fail;

#[test]
fn words_are_granted_up_to_the_limit(rt: HostRuntime) -> std::result::Result<(), Fail> {
    let mut limiter = ReadLimiter::new(Some(10));
    assert!(rt; limiter.charge(7).is_ok());
    let refused = limiter.charge(4).err().ok_or("granted")?;
    assert!(rt; refused.kind == ErrorKind::ReadLimitExceeded);
    assert!(rt; limiter.charge(3).is_ok());
    limiter.follow();
    assert!(rt; limiter.granted() == 10);
    assert!(rt; limiter.followed() == 1);
    Ok(())
}

#[test]
fn the_count_stops_without_a_limit(rt: HostRuntime) -> std::result::Result<(), Fail> {
    let mut limiter = ReadLimiter::new(None);
    assert!(rt; limiter.charge(u64::MAX).is_ok());
    assert!(rt; limiter.charge(1).is_ok());
    assert!(rt; limiter.granted() == u64::MAX);
    Ok(())
}
