//! The words of `pull`.

use super::parts::{Form, Kind, OWN_OFFSET, Parameter, QUIET, TIMEOUT};
use clap::ArgMatches;

/// The command.
pub const FORM: Form<'static> = Form {
    name: "pull",
    about: "Makes DATA and HASH the volume of a trusted table line, from the devices that it names",
    example: "Example:
  dalgovuun pull copy copy.hash --to-file image.table --table-file copy.table",
    parameters: &[
        Parameter {
            name: "DATA",
            help: "The block image that is made",
            kind: Kind::Argument,
        },
        Parameter {
            name: "HASH",
            help: "The hash device that is made",
            kind: Kind::Argument,
        },
        Parameter {
            name: "to",
            help: "The trusted table line, which names the source's devices",
            kind: Kind::Optional("LINE"),
        },
        Parameter {
            name: "to-file",
            help: "The file that holds that line, in place of --to",
            kind: Kind::Optional("FILE"),
        },
        Parameter {
            name: "table",
            help: "The trusted table line of the volume as it is now; blocks that are the same under both lines aren't read",
            kind: Kind::Optional("LINE"),
        },
        Parameter {
            name: "table-file",
            help: "The file that holds that line, in place of --table, and that the new line is kept in",
            kind: Kind::Optional("FILE"),
        },
        Parameter {
            name: "uuid",
            help: "The UUID of the volume; that of HASH, or of the source, where none is named",
            kind: Kind::Optional("UUID"),
        },
        OWN_OFFSET,
        TIMEOUT,
        QUIET,
    ],
};

/// The words of `pull`. Where FILE of the line is named, `to` is empty.
#[derive(Clone, Copy, Debug)]
pub struct PullWords<'a> {
    pub data_path: &'a str,
    pub hash_path: &'a str,
    /// Empty where `--to` isn't given.
    pub to: &'a str,
    pub to_file: Option<&'a str>,
    pub table: Option<&'a str>,
    pub table_file: Option<&'a str>,
    pub uuid: Option<&'a str>,
    pub hash_offset: Option<&'a str>,
    pub timeout: &'a str,
    pub is_quiet: bool,
}

pub fn pull_words<'a>(matches: &ArgMatches<'a>) -> Option<PullWords<'a>> {
    Some(PullWords {
        data_path: matches.get_str("DATA")?,
        hash_path: matches.get_str("HASH")?,
        to: matches.get_str("to").unwrap_or(""),
        to_file: matches.get_str("to-file"),
        table: matches.get_str("table"),
        table_file: matches.get_str("table-file"),
        uuid: matches.get_str("uuid"),
        hash_offset: matches.get_str("hash-offset"),
        timeout: matches.get_str("timeout")?,
        is_quiet: matches.get_flag("quiet"),
    })
}
