//! What a line of a script asks for.
ghost use Rattle.std.specs.Prelude.{◌≡◌, ◌==◌, ◌&&◌, ◌%◌, ◌∷◌, [], ◌↔◌, IsTrue, IsSome, IfSome, nat_le, length};
ghost use Rattle.std.specs.Option.{option_map};
ghost use Rattle.std.specs.List.{list_all};
ghost use Rattle.std.specs.Char.{is_ascii_digit, is_ascii_hexdigit};
ghost use Rattle.verity_superblock.specs.Line.{fields_of, is_number, number};
ghost use Rattle.cli_script.specs.Script.{asked, asked_by, asked_of, byte_of, is_block};

use hex::FromHex;
use verity_superblock::read_number;

/// What a line of a script asks for.
#[derive(Clone, Copy, Debug, PartialEq, Eq)]
pub enum Line<'a> {
    /// Write the data block of this number: the bytes that these hexadecimal digits spell, of which there is an even
    /// number, at least 2.
    Write(u64, &'a str),
    /// Fill the data block of this number with this byte.
    Fill(u64, u8),
    /// Add zero blocks, up to this count.
    Grow(u64),
    /// Drop the blocks from this count on.
    Shrink(u64),
    /// Drop the edits since the last commit.
    Discard,
    /// Commit the edits since the last commit.
    Commit,
}

/// Reads a line, without its line feed: words that stand apart by one space each. `None` is for all that is no command.
pub fn read_line(text: &str) -> Option<Line<'_>>
    ensures { option_map asked result ≡ asked_by text.now }
{
    match text.split_once(' ') {
        Some((word, rest)) => read_arguments(word, rest),
        None => read_word(text),
    }
}

/// Reads a line of one word.
fn read_word(word: &str) -> Option<Line<'_>>
    ensures { option_map asked result ≡ asked_of (word.now ∷ []) }
{
    if word == "discard" {
        Some(Line::Discard)
    } else if word == "commit" {
        Some(Line::Commit)
    } else {
        None
    }
}

/// Reads a line of a word and more.
fn read_arguments<'a>(word: &'a str, rest: &'a str) -> Option<Line<'a>>
    ensures { option_map asked result ≡ asked_of (word.now ∷ fields_of rest.now) }
{
    match rest.split_once(' ') {
        Some((place, rest)) => read_block(word, place, rest),
        None => read_count(word, rest),
    }
}

/// Reads a line of a word and a number.
fn read_count<'a>(word: &'a str, count: &'a str) -> Option<Line<'a>>
    ensures { option_map asked result ≡ asked_of (word.now ∷ count.now ∷ []) }
{
    let Some(blocks) = read_number(count) else {
        return None;
    };
    if word == "grow" {
        Some(Line::Grow(blocks))
    } else if word == "shrink" {
        Some(Line::Shrink(blocks))
    } else {
        None
    }
}

/// Reads a line of a word, a number, and more.
fn read_block<'a>(word: &'a str, place: &'a str, rest: &'a str) -> Option<Line<'a>>
    ensures { option_map asked result ≡ asked_of (word.now ∷ place.now ∷ fields_of rest.now) }
{
    match rest.split_once(' ') {
        Some(_) => None,
        None => read_digits(word, place, rest),
    }
}

/// Reads a line of a word, a number, and hexadecimal digits.
fn read_digits<'a>(word: &'a str, place: &'a str, digits: &'a str) -> Option<Line<'a>>
    ensures { option_map asked result ≡ asked_of (word.now ∷ place.now ∷ digits.now ∷ []) }
{
    let Some(n) = read_number(place) else {
        return None;
    };
    if word == "write" {
        if are_bytes(digits) {
            Some(Line::Write(n, digits))
        } else {
            None
        }
    } else if word == "fill" {
        match read_byte(digits) {
            Some(byte) => Some(Line::Fill(n, byte)),
            None => None,
        }
    } else {
        None
    }
}

/// The byte of two hexadecimal digits.
fn read_byte(digits: &str) -> Option<u8>
    ensures { result ≡ byte_of digits.now }
{
    match <[u8; 1] as FromHex>::from_hex(digits) {
        Ok(bytes) => Some(bytes[0]),
        Err(_) => None,
    }
}

/// Whether a text is an even number, at least 2, of hexadecimal digits.
fn are_bytes(digits: &str) -> bool
    ensures { result ≡ is_block digits.now }
{
    digits.len() >= 2 && digits.len() % 2 == 0 && are_hex_digits(digits)
}

fn are_hex_digits(text: &str) -> bool
    ensures { result ≡ list_all is_ascii_hexdigit text.now }
{
    text.as_bytes().iter().all(|byte| byte.is_ascii_hexdigit())
}
