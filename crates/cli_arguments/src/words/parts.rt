//! The commands as tables: what `--help` shows of each, and its arguments and options.

use clap::{Arg, ArgAction, Command};
use std::alloc::{AllocError, Global};

/// An argument or an option of a command.
#[derive(Clone, Copy)]
pub struct Parameter<'a> {
    pub name: &'a str,
    pub help: &'a str,
    pub kind: Kind<'a>,
}

/// What a parameter is, how `--help` names an option's value, and what stands where it isn't given.
#[derive(Clone, Copy)]
pub enum Kind<'a> {
    /// An argument, which has to be given.
    Argument,
    /// An option that has to be given, with a value of this name.
    Required(&'a str),
    /// An option that may be missing, with a value of this name.
    Optional(&'a str),
    /// An option with a value of this name that stands in place of another one, and not beside it.
    InPlace { value: &'a str, of: &'a str },
    /// An option with a value of this name, and what it is where it is missing.
    Default { value: &'a str, text: &'a str },
    /// An option without a value.
    Flag,
}

/// A command: its name, what it does, an example, and what it takes, in the order in which `--help` shows them.
#[derive(Clone, Copy)]
pub struct Form<'a> {
    pub name: &'a str,
    pub about: &'a str,
    pub example: &'a str,
    pub parameters: &'a [Parameter<'a>],
}

/// A command, as `clap` has it.
pub fn command_of<'a>(alloc: Global, form: Form<'a>) -> Result<Command<'a>, AllocError> {
    let mut command = Command::new(alloc, form.name)
        .about(form.about)
        .after_help(form.example);
    for parameter in form.parameters {
        let arg = arg_of(alloc, *parameter)?;
        command = command.arg(arg)?;
    }
    Ok(command)
}

/// A parameter, as `clap` has it. An option that has to be given may be missing where one is that excludes it.
fn arg_of<'a>(alloc: Global, parameter: Parameter<'a>) -> Result<Arg<'a>, AllocError> {
    let arg = Arg::new(alloc, parameter.name).help(parameter.help);
    match parameter.kind {
        Kind::Argument => Ok(arg.required(true)),
        Kind::Required(value) => Ok(arg.long(parameter.name).value_name(value).required(true)),
        Kind::Optional(value) => Ok(arg.long(parameter.name).value_name(value)),
        Kind::InPlace { value, of } => arg
            .long(parameter.name)
            .value_name(value)
            .conflicts_with(of),
        Kind::Default { value, text } => Ok(
            arg.long(parameter.name)
                .value_name(value)
                .default_value(text),
        ),
        Kind::Flag => Ok(arg.long(parameter.name).action(ArgAction::SetTrue)),
    }
}

/// DATA, of the commands that read an image or have one.
pub const DATA: Parameter<'static> = Parameter {
    name: "DATA",
    help: "The block image",
    kind: Kind::Argument,
};

/// HASH, of the commands that have a hash device.
pub const HASH: Parameter<'static> = Parameter {
    name: "HASH",
    help: "The hash device",
    kind: Kind::Argument,
};

/// `--hash-offset`, of the commands that read or write a superblock.
pub const HASH_OFFSET: Parameter<'static> = Parameter {
    name: "hash-offset",
    help: "The superblock's position in HASH, in bytes",
    kind: Kind::Default {
        value: "BYTES",
        text: "0",
    },
};

/// `--hash-offset`, of the commands that edit: not beside `--table`.
pub const OWN_OFFSET: Parameter<'static> = Parameter {
    name: "hash-offset",
    help: "The superblock's position in HASH, in bytes; 0 where neither it nor a line is named",
    kind: Kind::Optional("BYTES"),
};

/// `--table`, of the commands that edit.
pub const OWN_TABLE: Parameter<'static> = Parameter {
    name: "table",
    help: "The trusted table line of the volume; nothing else of it is trusted",
    kind: Kind::Optional("LINE"),
};

/// `--journal`, of the commands that commit.
pub const JOURNAL: Parameter<'static> = Parameter {
    name: "journal",
    help: "The journal's path, or none; HASH.journal where HASH is a file",
    kind: Kind::Optional("PATH"),
};

/// `--table`, of the commands that trust a table line.
pub const TABLE: Parameter<'static> = Parameter {
    name: "table",
    help: "The table line of the volume",
    kind: Kind::Required("LINE"),
};

/// `--table-file`, of the commands that trust a table line.
pub const TABLE_FILE: Parameter<'static> = Parameter {
    name: "table-file",
    help: "A file that has the table line, in place of LINE",
    kind: Kind::InPlace {
        value: "FILE",
        of: "table",
    },
};

/// `--name`, of the commands that serve.
pub const NAME: Parameter<'static> = Parameter {
    name: "name",
    help: "The export's name",
    kind: Kind::Required("NAME"),
};

/// `--cache`, of the commands that serve.
pub const CACHE: Parameter<'static> = Parameter {
    name: "cache",
    help: "How many checked hash blocks are kept",
    kind: Kind::Default {
        value: "BLOCKS",
        text: "1024",
    },
};

/// `--data-cache`, of the commands that serve.
pub const DATA_CACHE: Parameter<'static> = Parameter {
    name: "data-cache",
    help: "How many checked data blocks are kept for READs that take a part of one",
    kind: Kind::Default {
        value: "BLOCKS",
        text: "64",
    },
};

/// `--timeout`, of the commands that read devices at servers.
pub const TIMEOUT: Parameter<'static> = Parameter {
    name: "timeout",
    help: "How many seconds a server of a device is waited for",
    kind: Kind::Default {
        value: "SECONDS",
        text: "30",
    },
};

/// `--quiet`, of the commands that read a volume whole.
pub const QUIET: Parameter<'static> = Parameter {
    name: "quiet",
    help: "Shows no progress",
    kind: Kind::Flag,
};
