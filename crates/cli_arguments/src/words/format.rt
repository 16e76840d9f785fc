//! The words of `format`.

use super::parts::{DATA, Form, HASH_OFFSET, Kind, Parameter, QUIET};
use clap::ArgMatches;

/// The command.
pub const FORM: Form<'static> = Form {
    name: "format",
    about: "Makes the hash device of a block image, and prints the table line",
    example: "Example:
  dalgovuun format image image.hash --salt 00ff \\
    --uuid 01234567-89ab-cdef-0123-456789abcdef --table-file image.table",
    parameters: &[
        DATA,
        Parameter {
            name: "HASH",
            help: "The hash device that is made",
            kind: Kind::Argument,
        },
        Parameter {
            name: "salt",
            help: "The salt in hexadecimal, or 'none'",
            kind: Kind::Required("HEX"),
        },
        Parameter {
            name: "uuid",
            help: "The UUID of the volume",
            kind: Kind::Required("UUID"),
        },
        Parameter {
            name: "data-blocks",
            help: "How many blocks of DATA, where not all",
            kind: Kind::Optional("COUNT"),
        },
        Parameter {
            name: "data-block-size",
            help: "Bytes in a data block",
            kind: Kind::Default {
                value: "BYTES",
                text: "4096",
            },
        },
        Parameter {
            name: "hash-block-size",
            help: "Bytes in a hash block",
            kind: Kind::Default {
                value: "BYTES",
                text: "4096",
            },
        },
        Parameter {
            name: "algorithm",
            help: "sha256 or sha512",
            kind: Kind::Default {
                value: "NAME",
                text: "sha256",
            },
        },
        HASH_OFFSET,
        Parameter {
            name: "slice",
            help: "Makes the blocks of level 0 of the K-th of N slices, and prints 'slice A B'",
            kind: Kind::Optional("K/N"),
        },
        Parameter {
            name: "join",
            help: "Makes all but level 0; standard input has the lines of the slices",
            kind: Kind::Flag,
        },
        Parameter {
            name: "table-file",
            help: "Keeps the table line in this file, too",
            kind: Kind::Optional("FILE"),
        },
        QUIET,
    ],
};

/// The words of `format`.
#[derive(Clone, Copy, Debug)]
pub struct FormatWords<'a> {
    pub data_path: &'a str,
    pub hash_path: &'a str,
    pub salt: &'a str,
    pub uuid: &'a str,
    pub data_blocks: Option<&'a str>,
    pub data_block_size: &'a str,
    pub hash_block_size: &'a str,
    pub algorithm: &'a str,
    pub hash_offset: &'a str,
    pub slice: Option<&'a str>,
    pub is_joined: bool,
    pub table_file: Option<&'a str>,
    pub is_quiet: bool,
}

pub fn format_words<'a>(matches: &ArgMatches<'a>) -> Option<FormatWords<'a>> {
    Some(FormatWords {
        data_path: matches.get_str("DATA")?,
        hash_path: matches.get_str("HASH")?,
        salt: matches.get_str("salt")?,
        uuid: matches.get_str("uuid")?,
        data_blocks: matches.get_str("data-blocks"),
        data_block_size: matches.get_str("data-block-size")?,
        hash_block_size: matches.get_str("hash-block-size")?,
        algorithm: matches.get_str("algorithm")?,
        hash_offset: matches.get_str("hash-offset")?,
        slice: matches.get_str("slice"),
        is_joined: matches.get_flag("join"),
        table_file: matches.get_str("table-file"),
        is_quiet: matches.get_flag("quiet"),
    })
}
