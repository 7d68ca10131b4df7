//! Where a JSON object ends in a stream of objects.

/// The meaning of a byte for the object that is read.
#[derive(Clone, Copy, Debug, PartialEq, Eq)]
pub enum Scanned {
    /// White space before the object.
    Before,
    /// A part of the object.
    Inside,
    /// The last byte of the object.
    Last,
    /// A byte with which no object begins.
    Wrong,
}

/// Finds the end of a JSON object, byte by byte: the brace that closes its first brace, outside of
/// texts. (RFC 8259, sections 4 and 7)
#[derive(Clone, Copy, Debug, PartialEq, Eq, Default)]
pub struct Scanner {
    depth: u64,
    is_in_text: bool,
    is_escaped: bool,
}

impl Scanner {
    /// Returns whether an object has begun and not ended.
    pub fn has_begun(&self) -> bool {
        self.depth > 0
    }

    /// Takes a byte of a text in the object.
    fn take_in_text(&mut self, byte: u8) {
        if self.is_escaped {
            self.is_escaped = false;
        } else if byte == b'\\' {
            self.is_escaped = true;
        } else if byte == b'"' {
            self.is_in_text = false;
        }
    }

    /// Takes the next byte of the stream.
    pub fn take(&mut self, byte: u8) -> Scanned {
        if self.depth == 0 {
            return match byte {
                b' ' | b'\t' | b'\n' | b'\r' => Scanned::Before,
                b'{' => {
                    self.depth = 1;
                    Scanned::Inside
                }
                _ => Scanned::Wrong,
            };
        }
        if self.is_in_text {
            self.take_in_text(byte);
            return Scanned::Inside;
        }
        match byte {
            b'"' => self.is_in_text = true,
            b'{' | b'[' => self.depth = self.depth.saturating_add(1),
            b'}' | b']' => self.depth -= 1,
            _ => {}
        }
        if self.depth == 0 {
            Scanned::Last
        } else {
            Scanned::Inside
        }
    }
}
