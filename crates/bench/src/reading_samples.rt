//! Large messages.
ghost use Rattle.std.specs.Prelude.{◌<◌, ◌^◌};

use std::alloc::{AllocError, Global};

fn push(bytes: &mut Vec<u8>, word: u64) -> Result<(), AllocError> {
    bytes.extend_from_slice(&word.to_le_bytes())
}

/// Makes a list of n structs of one data word, which holds the element's index, and one null
/// pointer. The list is the root.
pub fn structs(alloc: Global, count: u32) -> Result<Vec<u8>, AllocError>
    requires { count < 2 ^ 28 }
{
    let words = 2 * count as u64;
    let mut bytes = Vec::new(alloc);
    push(&mut bytes, 1 + (7 + 8 * words) * 0x1_0000_0000)?;
    push(&mut bytes, 4 * count as u64 + 0x1_0001_0000_0000)?;
    for i in 0..count {
        push(&mut bytes, i as u64)?;
        push(&mut bytes, 0)?;
    }
    Ok(bytes)
}

/// Makes a text of n letters `a`. The text is the root.
pub fn text(alloc: Global, len: u32) -> Result<Vec<u8>, AllocError>
    requires { len < 2 ^ 28 }
{
    let count = len as u64 + 1;
    let mut bytes = Vec::new(alloc);
    push(&mut bytes, 1 + (2 + 8 * count) * 0x1_0000_0000)?;
    for _ in 0..len {
        bytes.push(b'a')?;
    }
    for _ in 0..8 - len % 8 {
        bytes.push(0)?;
    }
    Ok(bytes)
}
