ghost use Rattle.std.specs.Prelude.{◌≡◌, count_by};
ghost use Rattle.std.specs.List.{after_last};
ghost use Rattle.settings_fault.specs.Places.{line_of, column_of, is_line_break, begins_character};

use std::fmt;

/// A place in a text.
#[derive(Clone, Copy, Debug, Drop, PartialEq, Eq)]
pub struct Place {
    /// Its line, from 1.
    pub line: usize,

    /// Its character in the line, from 1.
    pub column: usize,
}

impl Place {
    /// The place of the byte at this offset; that of the end for a greater one.
    pub fn of(text: &[u8], offset: usize) -> Place
        ensures line { result.line ≡ line_of text.now offset }
        ensures column { result.column ≡ column_of text.now offset }
    {
        let before = &text[..offset.min(text.len())];
        Place {
            line: 1 + line_breaks(before),
            column: 1 + characters(last_line(before)),
        }
    }
}

fn line_breaks(text: &[u8]) -> usize
    ensures { result ≡ count_by is_line_break text.now }
{
    text.iter().filter(|byte| **byte == b'\n').count()
}

// What stands behind the last line break.
fn last_line(text: &[u8]) -> &[u8]
    ensures { result.now ≡ after_last is_line_break text.now }
{
    let mut start = 0;
    for at in 0..text.len() {
        if text[at] == b'\n' {
            start = at + 1;
        }
    }
    &text[start..]
}

fn characters(text: &[u8]) -> usize
    ensures { result ≡ count_by begins_character text.now }
{
    text.iter()
        .filter(|byte| **byte < 128 || 192 <= **byte)
        .count()
}

impl fmt::Display for Place {
    fn fmt<W: fmt::Write>(&self, f: &mut fmt::Formatter<W>) -> fmt::Result {
        let (line, column) = (self.line, self.column);
        write!(f, "{line}:{column}")
    }
}
