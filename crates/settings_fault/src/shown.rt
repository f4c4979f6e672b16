//! A piece of a file as a line shows it.
#![tactic(auto, using(crate::proofs::PrintableLemmas::printable_append, crate::proofs::PrintableLemmas::printable_character))]

ghost use Rattle.std.specs.Prelude.{◌<◌, ◌≤◌, ◌⊎◌, IsTrue, IfOk, string_bytes};
ghost use Rattle.settings_fault.specs.Lines.{ArePrintable};

use std::alloc::{AllocError, Global};

// The most characters of a file that a line shows.
const MAX_CHARACTERS: usize = 60;

const CUT: &str = "..";

/// The first characters of these bytes, in no more than 60 characters. What is no letter, digit or sign is escaped as in
/// JSON, and a cut is told by two points. Refused where memory is.
pub(crate) fn shown(alloc: Global, part: &[u8]) -> Result<String, AllocError>
    ensures { IfOk result (λ line. ArePrintable (string_bytes line)) }
{
    let mut line = String::new(alloc);
    let Ok(text) = std::str::from_utf8(part) else {
        push_bytes(&mut line, part)?;
        return Ok(line);
    };
    let mut room = MAX_CHARACTERS - CUT.len();
    for character in text.chars() {
        let Some(left) = room.checked_sub(width_of(character)) else {
            line.push_str(CUT)?;
            break;
        };
        room = left;
        push_character(&mut line, character)?;
    }
    Ok(line)
}

// The first of bytes that aren't UTF-8.
fn push_bytes(line: &mut String, part: &[u8]) -> Result<(), AllocError>
    ensures { ArePrintable (string_bytes line.old) → ArePrintable (string_bytes line.new) }
{
    for byte in &part[..part.len().min(4)] {
        line.push_str("\\x")?;
        push_digit(line, *byte >> 4)?;
        push_digit(line, *byte & 15)?;
    }
    Ok(())
}

fn is_shown(character: char) -> bool
    ensures { IsTrue result → ((32 ≤ character) × (character < 127)) ⊎ (160 ≤ character) }
{
    (' '..='~').contains(&character) || (character > '\u{9f}' && character.is_alphanumeric())
}

fn width_of(character: char) -> usize {
    match character {
        '\n' | '\r' | '\t' => 2,
        _ if is_shown(character) => 1,
        _ if (character as u32) < 0x1_0000 => 6,
        _ => 12,
    }
}

fn push_character(line: &mut String, character: char) -> Result<(), AllocError>
    ensures { ArePrintable (string_bytes line.old) → ArePrintable (string_bytes line.new) }
{
    match character {
        '\n' => line.push_str("\\n"),
        '\r' => line.push_str("\\r"),
        '\t' => line.push_str("\\t"),
        _ if is_shown(character) => line.push(character),
        _ => push_escape(line, character),
    }
}

// As JSON escapes it, by its units of UTF-16.
fn push_escape(line: &mut String, character: char) -> Result<(), AllocError>
    ensures { ArePrintable (string_bytes line.old) → ArePrintable (string_bytes line.new) }
{
    let mut units = [0; 2];
    for unit in &*character.encode_utf16(&mut units) {
        push_unit(line, *unit)?;
    }
    Ok(())
}

fn push_unit(line: &mut String, unit: u16) -> Result<(), AllocError>
    ensures { ArePrintable (string_bytes line.old) → ArePrintable (string_bytes line.new) }
{
    line.push_str("\\u")?;
    push_digit(line, (unit >> 12) as u8)?;
    push_digit(line, (unit >> 8 & 15) as u8)?;
    push_digit(line, (unit >> 4 & 15) as u8)?;
    push_digit(line, (unit & 15) as u8)
}

fn push_digit(line: &mut String, digit: u8) -> Result<(), AllocError>
    requires { digit < 16 }
    ensures { ArePrintable (string_bytes line.old) → ArePrintable (string_bytes line.new) }
{
    let first = if digit < 10 { b'0' } else { b'a' - 10 };
    line.push((first + digit) as char)
}
