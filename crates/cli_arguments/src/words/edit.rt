//! The words of `edit`.

use super::parts::{DATA, Form, HASH, JOURNAL, Kind, OWN_OFFSET, OWN_TABLE, Parameter, QUIET};
use clap::ArgMatches;

/// The command.
pub const FORM: Form<'static> = Form {
    name: "edit",
    about: "Does a script's lines over a volume, and prints an answer to each",
    example: "Example:
  printf 'grow 310\\nfill 309 5a\\ncommit\\n' > script
  dalgovuun edit image image.hash script --table-file image.table",
    parameters: &[
        DATA,
        HASH,
        Parameter {
            name: "SCRIPT",
            help: "The script",
            kind: Kind::Argument,
        },
        OWN_OFFSET,
        OWN_TABLE,
        Parameter {
            name: "table-file",
            help: "The file that has the table line, in place of --table, and that the new line is kept in",
            kind: Kind::Optional("FILE"),
        },
        JOURNAL,
        QUIET,
    ],
};

/// The words of `edit`.
#[derive(Clone, Copy, Debug)]
pub struct EditWords<'a> {
    pub data_path: &'a str,
    pub hash_path: &'a str,
    pub script_path: &'a str,
    pub hash_offset: Option<&'a str>,
    pub table: Option<&'a str>,
    pub table_file: Option<&'a str>,
    pub journal: Option<&'a str>,
    pub is_quiet: bool,
}

pub fn edit_words<'a>(matches: &ArgMatches<'a>) -> Option<EditWords<'a>> {
    Some(EditWords {
        data_path: matches.get_str("DATA")?,
        hash_path: matches.get_str("HASH")?,
        script_path: matches.get_str("SCRIPT")?,
        hash_offset: matches.get_str("hash-offset"),
        table: matches.get_str("table"),
        table_file: matches.get_str("table-file"),
        journal: matches.get_str("journal"),
        is_quiet: matches.get_flag("quiet"),
    })
}
