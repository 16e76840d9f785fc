//! The words of `update`.

use super::parts::{
    DATA, Form, HASH, JOURNAL, Kind, OWN_OFFSET, OWN_TABLE, Parameter, QUIET, TIMEOUT,
};
use clap::ArgMatches;

/// The command.
pub const FORM: Form<'static> = Form {
    name: "update",
    about: "Makes a volume that of another image, by what differs, with one commit",
    example: "Example:
  cp image image.new; printf 'new bytes' | dd of=image.new conv=notrunc status=none
  dalgovuun update image image.hash image.new --table-file image.table",
    parameters: &[
        DATA,
        HASH,
        Parameter {
            name: "NEW",
            help: "The new image",
            kind: Kind::Argument,
        },
        OWN_OFFSET,
        OWN_TABLE,
        Parameter {
            name: "table-file",
            help: "The file that has the table line, in place of --table, and that the new line is kept in",
            kind: Kind::Optional("FILE"),
        },
        JOURNAL,
        TIMEOUT,
        QUIET,
    ],
};

/// The words of `update`.
#[derive(Clone, Copy, Debug)]
pub struct UpdateWords<'a> {
    pub data_path: &'a str,
    pub hash_path: &'a str,
    pub new_path: &'a str,
    pub hash_offset: Option<&'a str>,
    pub table: Option<&'a str>,
    pub table_file: Option<&'a str>,
    pub journal: Option<&'a str>,
    pub timeout: &'a str,
    pub is_quiet: bool,
}

pub fn update_words<'a>(matches: &ArgMatches<'a>) -> Option<UpdateWords<'a>> {
    Some(UpdateWords {
        data_path: matches.get_str("DATA")?,
        hash_path: matches.get_str("HASH")?,
        new_path: matches.get_str("NEW")?,
        hash_offset: matches.get_str("hash-offset"),
        table: matches.get_str("table"),
        table_file: matches.get_str("table-file"),
        journal: matches.get_str("journal"),
        timeout: matches.get_str("timeout")?,
        is_quiet: matches.get_flag("quiet"),
    })
}
