//! The words of `serve`.

use super::parts::{CACHE, DATA_CACHE, Form, Kind, NAME, Parameter, TABLE, TABLE_FILE, TIMEOUT};
use clap::ArgMatches;

/// The command.
pub const FORM: Form<'static> = Form {
    name: "serve",
    about: "Serves a volume over NBD, to up to 64 clients at once",
    example: "Example:
  dalgovuun serve --table-file image.table \\
    --listen 127.0.0.1:10809 --name vol &
  nbdcopy nbd://127.0.0.1/vol copy",
    parameters: &[
        TABLE,
        TABLE_FILE,
        Parameter {
            name: "listen",
            help: "The address to listen on, as HOST:PORT or unix:PATH",
            kind: Kind::Required("ADDRESS"),
        },
        NAME,
        CACHE,
        DATA_CACHE,
        Parameter {
            name: "sessions",
            help: "How many connections are served",
            kind: Kind::Default {
                value: "COUNT",
                text: "4294967295",
            },
        },
        Parameter {
            name: "memory",
            help: "The most MiB of replies that wait to be sent",
            kind: Kind::Default {
                value: "MIB",
                text: "128",
            },
        },
        Parameter {
            name: "idle",
            help: "After how many seconds a silent client is disconnected; 0: never",
            kind: Kind::Default {
                value: "SECONDS",
                text: "0",
            },
        },
        Parameter {
            name: "stall",
            help: "After how many seconds a client that reads no reply makes way for one that waits; 0: never",
            kind: Kind::Default {
                value: "SECONDS",
                text: "30",
            },
        },
        TIMEOUT,
    ],
};

/// The words of `serve`. Where FILE is named, `table` is empty.
#[derive(Clone, Copy, Debug)]
pub struct ServeWords<'a> {
    pub table: &'a str,
    pub table_file: Option<&'a str>,
    pub listen: &'a str,
    pub name: &'a str,
    pub cache: &'a str,
    pub data_cache: &'a str,
    pub sessions: &'a str,
    pub memory: &'a str,
    pub idle: &'a str,
    pub stall: &'a str,
    pub timeout: &'a str,
}

pub fn serve_words<'a>(matches: &ArgMatches<'a>) -> Option<ServeWords<'a>> {
    Some(ServeWords {
        table: matches.get_str("table").unwrap_or(""),
        table_file: matches.get_str("table-file"),
        listen: matches.get_str("listen")?,
        name: matches.get_str("name")?,
        cache: matches.get_str("cache")?,
        data_cache: matches.get_str("data-cache")?,
        sessions: matches.get_str("sessions")?,
        memory: matches.get_str("memory")?,
        idle: matches.get_str("idle")?,
        stall: matches.get_str("stall")?,
        timeout: matches.get_str("timeout")?,
    })
}
