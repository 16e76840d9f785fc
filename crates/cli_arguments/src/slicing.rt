//! The argument of `--slice`.

ghost use Rattle.std.specs.Prelude.{◌≡◌, ◌++◌, ◌∷◌, ◌<◌, IfOk, IfErr, IfSome};
ghost use Rattle.cli_faults.specs.declared.failure.Word.TheVariants as word;
ghost use Rattle.cli_arguments.specs.Slices.{NamesSlice};

use cli_faults::{Failure, Word, number};
use verity_slice::Slice;

/// The slice that a text names, `K/N`: K from 1 to N, and N at most 65,536.
///
/// # Errors
///
/// `--slice` isn't understood (status 2).
pub fn slice(text: &str) -> Result<Slice, Failure>
    ensures named { IfOk result (NamesSlice text.now) }
    ensures blames { IfErr result (λ e. e ≡ Failure.Word word.Slice) }
{
    let Some((index, count)) = around(text, '/') else {
        return Err(Failure::Word(Word::Slice));
    };
    let index = number(Word::Slice, index)?;
    let count = number(Word::Slice, count)?;
    match Slice::new(index, count) {
        Some(slice) => Ok(slice),
        None => Err(Failure::Word(Word::Slice)),
    }
}

/// What stands on both sides of the first mark, an ASCII character.
pub fn around(text: &str, mark: char) -> Option<(&str, &str)>
    requires { mark < 128 }
    ensures { IfSome result (λ parts. text.now ≡ parts.0.now ++ (mark ∷ parts.1.now)) }
{
    text.split_once(mark)
}
