//! The words of `recover`.

use super::parts::{DATA, Form, HASH, JOURNAL, Kind, Parameter};
use clap::ArgMatches;

/// `--table-file`.
const TABLE_FILE: Parameter<'static> = Parameter {
    name: "table-file",
    help: "The file of the volume's table line",
    kind: Kind::Optional("FILE"),
};

/// The command.
pub const FORM: Form<'static> = Form {
    name: "recover",
    about: "Recovers a commit that a crash cut short",
    example: "Example:
  dalgovuun recover image image.hash --table-file image.table",
    parameters: &[DATA, HASH, JOURNAL, TABLE_FILE],
};

/// The words of `recover`.
#[derive(Clone, Copy, Debug)]
pub struct RecoverWords<'a> {
    pub data_path: &'a str,
    pub hash_path: &'a str,
    pub journal: Option<&'a str>,
    pub table_file: Option<&'a str>,
}

pub fn recover_words<'a>(matches: &ArgMatches<'a>) -> Option<RecoverWords<'a>> {
    Some(RecoverWords {
        data_path: matches.get_str("DATA")?,
        hash_path: matches.get_str("HASH")?,
        journal: matches.get_str("journal"),
        table_file: matches.get_str("table-file"),
    })
}
