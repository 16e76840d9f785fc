//! The words of `dump`.

use super::parts::{Form, HASH, HASH_OFFSET};
use clap::ArgMatches;

/// The command.
pub const FORM: Form<'static> = Form {
    name: "dump",
    about: "Prints the superblock of a hash device",
    example: "Example:
  dalgovuun dump image.hash",
    parameters: &[HASH, HASH_OFFSET],
};

/// The words of `dump`.
#[derive(Clone, Copy, Debug)]
pub struct DumpWords<'a> {
    pub hash_path: &'a str,
    pub hash_offset: &'a str,
}

pub fn dump_words<'a>(matches: &ArgMatches<'a>) -> Option<DumpWords<'a>> {
    Some(DumpWords {
        hash_path: matches.get_str("HASH")?,
        hash_offset: matches.get_str("hash-offset")?,
    })
}
