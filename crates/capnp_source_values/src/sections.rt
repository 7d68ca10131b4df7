//! Data sections, and the bytes of lists.

use capnp_source_nodes::values::Width;

/// Returns a byte with one bit replaced.
fn with_bit(byte: u8, place: u8, is_set: bool) -> u8 {
    let mask = match place {
        0 => 1,
        1 => 2,
        2 => 4,
        3 => 8,
        4 => 16,
        5 => 32,
        6 => 64,
        _ => 128,
    };
    if is_set { byte | mask } else { byte & !mask }
}

/// Writes one bit. Returns whether it is inside.
fn put_bit(data: &mut [u8], place: usize, is_set: bool) -> bool {
    match data.get_mut(place / 8) {
        Some(byte) => {
            let inside = match place % 8 {
                0 => 0,
                1 => 1,
                2 => 2,
                3 => 3,
                4 => 4,
                5 => 5,
                6 => 6,
                _ => 7,
            };
            *byte = with_bit(*byte, inside, is_set);
            true
        }
        None => false,
    }
}

/// Writes bytes from a place on, up to the end. Returns whether they are inside.
fn put_bytes(data: &mut [u8], start: usize, bytes: &[u8]) -> bool {
    let mut place = start;
    for value in bytes {
        match data.get_mut(place) {
            Some(byte) => *byte = *value,
            None => return false,
        }
        place = place.saturating_add(1);
    }
    true
}

/// Writes the lowest bits of a value, whose place is in multiples of its size. Returns whether they
/// are inside.
pub(crate) fn put(data: &mut [u8], width: Width, place: usize, bits: u64) -> bool {
    let [a, b, c, d, e, f, g, h] = bits.to_le_bytes();
    match width {
        Width::Void => true,
        Width::Bit => put_bit(data, place, bits % 2 == 1),
        Width::Byte => put_bytes(data, place, &[a]),
        Width::TwoBytes => match place.checked_mul(2) {
            Some(start) => put_bytes(data, start, &[a, b]),
            None => false,
        },
        Width::FourBytes => match place.checked_mul(4) {
            Some(start) => put_bytes(data, start, &[a, b, c, d]),
            None => false,
        },
        Width::EightBytes => match place.checked_mul(8) {
            Some(start) => put_bytes(data, start, &[a, b, c, d, e, f, g, h]),
            None => false,
        },
    }
}
