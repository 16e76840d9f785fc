//! The words of `verify`.

use super::parts::{Form, Kind, Parameter, QUIET, TABLE, TABLE_FILE, TIMEOUT};
use clap::ArgMatches;

/// The command.
pub const FORM: Form<'static> = Form {
    name: "verify",
    about: "Reports what is wrong in a volume",
    example: "Example:
  dalgovuun verify --table-file image.table",
    parameters: &[
        TABLE,
        TABLE_FILE,
        Parameter {
            name: "slice",
            help: "Reports the K-th of N slices of the data blocks, and the hash blocks above it",
            kind: Kind::Optional("K/N"),
        },
        TIMEOUT,
        QUIET,
    ],
};

/// The words of `verify`. Where FILE is named, `table` is empty.
#[derive(Clone, Copy, Debug)]
pub struct VerifyWords<'a> {
    pub table: &'a str,
    pub table_file: Option<&'a str>,
    pub slice: Option<&'a str>,
    pub timeout: &'a str,
    pub is_quiet: bool,
}

pub fn verify_words<'a>(matches: &ArgMatches<'a>) -> Option<VerifyWords<'a>> {
    Some(VerifyWords {
        table: matches.get_str("table").unwrap_or(""),
        table_file: matches.get_str("table-file"),
        slice: matches.get_str("slice"),
        timeout: matches.get_str("timeout")?,
        is_quiet: matches.get_flag("quiet"),
    })
}
