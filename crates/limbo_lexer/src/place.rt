//! Places in a source. Nothing is proved of them: which span is told is shown by tests.

use inf_text::Span;

/// A line and a column, both from 1.
#[derive(Clone, Copy)]
pub struct Place {
    line: u32,
    col: u32,
}

/// A number of characters. A source has fewer than 2^32.
fn count(n: usize) -> u32 {
    u32::try_from(n).unwrap_or(u32::MAX)
}

impl Place {
    /// The place of the first character.
    pub fn first() -> Place {
        Place { line: 1, col: 1 }
    }

    /// The place behind these characters, which stand at this one.
    pub fn behind(self, chars: &[char]) -> Place {
        let mut place = self;
        for c in chars {
            if *c == '\n' {
                place.line = place.line.saturating_add(1);
                place.col = 1;
            } else {
                place.col = place.col.saturating_add(1);
            }
        }
        place
    }

    /// The span of this many characters from this place on.
    pub fn span(self, len: usize) -> Span {
        Span {
            line: self.line,
            col: self.col,
            len: count(len),
        }
    }
}
