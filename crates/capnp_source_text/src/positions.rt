//! Lines and columns of a source.

ghost use Rattle.std.specs.Prelude.{◌≡◌, take};
ghost use Rattle.capnp_source_text.specs.Positions.{position_behind};

/// A line and a column, each counted from 1. A column is one byte.
#[derive(Clone, Copy, Debug, PartialEq, Eq)]
pub struct Position {
    pub line: usize,
    pub column: usize,
}

/// Returns the position after the first `count` bytes of a text, or after all its bytes if there
/// are fewer.
pub fn position_behind(text: &[u8], count: usize) -> Position
    ensures { result ≡ position_behind (take count text.now) }
{
    let mut line = 0;
    let mut column = 0;
    for byte in &text[..count.min(text.len())] {
        if *byte == b'\n' {
            line += 1;
            column = 0;
        } else {
            column += 1;
        }
    }
    Position {
        line: line + 1,
        column: column + 1,
    }
}
