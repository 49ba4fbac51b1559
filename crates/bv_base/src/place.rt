//! Where something stands in a text.

ghost use Rattle.std.specs.Prelude.{◌≡◌, ◌+◌, ◌≤◌, length};
ghost use Rattle.bv_base.specs.Places as places;

use crate::limits::DATA_BYTES;

/// A place in a text: its line and its column, both counted from 1.
///
/// The column counts bytes, and a line ends at byte 10. The place at the end of a text is the one that its next
/// byte would have. Texts have at most 16777216 bytes, so both numbers fit 32 bits.
#[derive(Clone, Copy, Debug, PartialEq, Eq)]
pub struct Place {
    pub line: u32,
    pub column: u32,
}

impl Place {
    /// The place of a text's first byte.
    pub const START: Place = Place { line: 1, column: 1 };

    /// The place after some bytes, of which the first stands here.
    pub fn after(self, bytes: &[u8]) -> Place
        requires line { self.line + length bytes.now ≤ 4294967295 }
        requires column { self.column + length bytes.now ≤ 4294967295 }
        ensures place { result ≡ places.after_bytes bytes.now self }
        ensures line { result.line ≤ self.line + length bytes.now }
        ensures column { result.column ≤ self.column + length bytes.now }
    {
        let Place {
            mut line,
            mut column,
        } = self;
        for b in bytes {
            if *b == b'\n' {
                line += 1;
                column = 1;
            } else {
                column += 1;
            }
        }
        Place { line, column }
    }

    /// The place some bytes further on in the same line.
    pub fn along(self, bytes: usize) -> Place
        requires { self.column + bytes ≤ 4294967295 }
        ensures { result ≡ places.along self bytes }
    {
        Place {
            line: self.line,
            column: self.column + bytes as u32,
        }
    }

    /// The place of a text at which so many of its bytes are left, or of its first byte where it has fewer.
    pub fn before(source: &[u8], left: usize) -> Place
        requires { length source.now ≤ DATA_BYTES }
        ensures { result ≡ places.place_before source.now left }
    {
        let count = source.len().saturating_sub(left);
        Place::START.after(&source[..count])
    }
}
