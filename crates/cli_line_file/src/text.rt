//! The line that a text is.
ghost use Rattle.std.specs.Prelude.{◌≡◌, IfOk, MatchOption};
ghost use Rattle.verity_superblock.specs.Line.{TableLine};
ghost use Rattle.verity_line_file.specs.Lines.{line_of, is_one_line, ends_line, HoldsWhole};
ghost use Rattle.cli_line_file.specs.Files.{IsText, IsTheLine};

use std::alloc::{AllocError, Global};
use std::str;
use verity_superblock::{Table, TableFault, laws};

/// Whether a line feed stands at a text's end.
fn ends_with_feed(text: &[u8]) -> bool
    ensures { result ≡ ends_line text.now }
{
    0 < text.len() && text[text.len() - 1] == b'\n'
}

/// A text without the line feed at its end.
fn without_feed(text: &[u8]) -> &[u8]
    ensures { result.now ≡ line_of text.now }
{
    if ends_with_feed(text) {
        &text[..text.len() - 1]
    } else {
        text
    }
}

/// Whether no line feed stands in a text.
fn is_line(text: &[u8]) -> bool
    ensures { result ≡ is_one_line text.now }
{
    text.iter().all(|byte| *byte != b'\n')
}

/// The one line that a text is, without the line feed at its end; none where it is more, or isn't UTF-8.
pub(crate) fn line_in(text: &[u8]) -> Option<&str>
    ensures { MatchOption result (¬ IsText text.now) (λ line. IsTheLine text.now line.now) }
{
    let line = without_feed(text);
    if !is_line(line) {
        return None;
    }
    match str::from_utf8(line) {
        Ok(line) => Some(line),
        Err(_) => None,
    }
}

/// The table line that a text holds whole, with a line feed behind it; none where it doesn't.
pub(crate) fn whole_table_in(alloc: Global, text: &[u8]) -> Result<Option<Table>, AllocError>
    ensures { IfOk result (λ found. MatchOption found ((t : TableLine) → ¬ HoldsWhole text.now t) (λ table. HoldsWhole text.now table)) }
{
    laws::refuses_other_lines();
    if !ends_with_feed(text) {
        return Ok(None);
    }
    let line = without_feed(text);
    if !is_line(line) {
        return Ok(None);
    }
    let Ok(line) = str::from_utf8(line) else {
        return Ok(None);
    };
    match Table::parse(alloc, line) {
        Ok(table) => Ok(Some(table)),
        Err(TableFault::NoMemory) => Err(AllocError),
        Err(_) => Ok(None),
    }
}
