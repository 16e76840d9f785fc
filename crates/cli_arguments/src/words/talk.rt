//! The words of `talk`.

use super::parts::{CACHE, DATA_CACHE, Form, NAME, TABLE, TABLE_FILE, TIMEOUT};
use clap::ArgMatches;

/// The command.
pub const FORM: Form<'static> = Form {
    name: "talk",
    about: "Serves a volume to one NBD client, over standard input and output",
    example: "Example:
  nbdsh -c 'h.connect_command([\"dalgovuun\", \"talk\",
    \"--table-file\", \"image.table\", \"--name\", \"vol\"])' \\
    -c 'print(h.get_size())'",
    parameters: &[TABLE, TABLE_FILE, NAME, CACHE, DATA_CACHE, TIMEOUT],
};

/// The words of `talk`. Where FILE is named, `table` is empty.
#[derive(Clone, Copy, Debug)]
pub struct TalkWords<'a> {
    pub table: &'a str,
    pub table_file: Option<&'a str>,
    pub name: &'a str,
    pub cache: &'a str,
    pub data_cache: &'a str,
    pub timeout: &'a str,
}

pub fn talk_words<'a>(matches: &ArgMatches<'a>) -> Option<TalkWords<'a>> {
    Some(TalkWords {
        table: matches.get_str("table").unwrap_or(""),
        table_file: matches.get_str("table-file"),
        name: matches.get_str("name")?,
        cache: matches.get_str("cache")?,
        data_cache: matches.get_str("data-cache")?,
        timeout: matches.get_str("timeout")?,
    })
}
