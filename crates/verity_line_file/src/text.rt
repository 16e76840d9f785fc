//! The line that a text holds.
ghost use Rattle.std.specs.Prelude.{◌≡◌, ◌≢◌, IsTrue, IfOk, IfErr, MatchOption, [], ◌∷◌, ◌++◌};
ghost use Rattle.verity_superblock.specs.Line.{TableLine};
ghost use Rattle.verity_line_file.specs.Lines.{line_of, is_one_line, ends_line, text_of, Holds, HoldsWhole};

use std::alloc::{AllocError, Global};
use std::str;
use verity_superblock::{Table, TableFault, laws};

/// Whether a line feed stands at a text's end.
fn ends_with_feed(text: &[u8]) -> bool
    ensures { result ≡ ends_line text.now }
{
    0 < text.len() && text[text.len() - 1] == b'\n'
}

/// A text without the line feed at its end.
fn without_feed(text: &[u8]) -> &[u8]
    ensures { result.now ≡ line_of text.now }
{
    if ends_with_feed(text) {
        &text[..text.len() - 1]
    } else {
        text
    }
}

/// Whether no line feed stands in a text.
fn is_line(text: &[u8]) -> bool
    ensures { result ≡ is_one_line text.now }
{
    text.iter().all(|byte| *byte != b'\n')
}

/// The table line that a text holds. L1 where it is more than one line, or isn't UTF-8; else as `Table::parse` has it.
pub(crate) fn table_in(alloc: Global, text: &[u8]) -> Result<Table, TableFault>
    ensures holds { IfOk result (λ table. Holds text.now table) }
    ensures refused { IfErr result (λ e. e ≢ TableFault.NoMemory → (t : TableLine) → ¬ Holds text.now t) }
{
    laws::refuses_other_lines();
    let line = without_feed(text);
    if !is_line(line) {
        return Err(TableFault::Fields);
    }
    match str::from_utf8(line) {
        Ok(line) => Table::parse(alloc, line),
        Err(_) => Err(TableFault::Fields),
    }
}

/// The table line that a text holds whole, with a line feed behind it; none where it doesn't.
pub(crate) fn whole_table_in(alloc: Global, text: &[u8]) -> Result<Option<Table>, AllocError>
    ensures { IfOk result (λ found. MatchOption found ((t : TableLine) → ¬ HoldsWhole text.now t) (λ table. HoldsWhole text.now table)) }
{
    if !ends_with_feed(text) {
        return Ok(None);
    }
    match table_in(alloc, text) {
        Ok(table) => Ok(Some(table)),
        Err(TableFault::NoMemory) => Err(AllocError),
        Err(_) => Ok(None),
    }
}

/// The text that is written for a table line. L1 where a line feed stands in it, as in a path; L9.
pub(crate) fn text_for(alloc: Global, table: &Table) -> Result<Vec<u8>, TableFault>
    ensures text { IfOk result (λ text. text.items ≡ text_of table.now) }
    ensures holds { IfOk result (λ text. HoldsWhole text.items table.now) }
    ensures refused { IfErr result (λ e. e ≢ TableFault.NoMemory → ¬ IsTrue (is_one_line (line_of (text_of table.now)))) }
{
    table.facts();
    laws::spells_back();
    let text = table.text()?;
    let line = text.as_str();
    if !is_line(line.as_bytes()) {
        return Err(TableFault::Fields);
    }
    let Ok(text) = with_feed(alloc, line.as_bytes()) else {
        return Err(TableFault::NoMemory);
    };
    Ok(text)
}

/// A line with a line feed behind it.
fn with_feed(alloc: Global, line: &[u8]) -> Result<Vec<u8>, AllocError>
    ensures { IfOk result (λ text. text.items ≡ line.now ++ 10 ∷ []) }
{
    let mut text = line.to_vec(alloc)?;
    text.push(b'\n')?;
    Ok(text)
}
