//! Where a command's trusted table line stands.
ghost use Rattle.std.specs.Prelude.{◌≡◌, ◌≢◌, None, IfErr};
ghost use Rattle.cli_faults.specs.declared.failure.Word.TheVariants as word;

use cli_faults::{Failure, Word};

/// That a table line isn't named both as it is and by its file. FILE isn't understood where it is.
pub fn check_one_line(table: Option<&str>, table_file: Option<&str>) -> Result<(), Failure>
    ensures { IfErr result (λ e. (e ≡ Failure.Word word.TableFile) × (table.entry ≢ None) × (table_file.entry ≢ None)) }
{
    if table.is_some() && table_file.is_some() {
        return Err(Failure::Word(Word::TableFile));
    }
    Ok(())
}
