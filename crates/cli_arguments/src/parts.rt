//! What a command works on, as its words name it.

use crate::line_files::LineSeen;
use crate::words::{
    EditWords, PullWords, Request, ServeWords, TalkWords, UpdateWords, VerifyWords,
};
use cli_faults::Command;
use os_urls::is_url;
use verity_store::Which;

/// The files that a command's words name, and the sizes of their blocks; what the words don't name is empty or 0.
#[derive(Clone, Copy, Debug)]
pub struct Parts<'a> {
    pub command: Command,
    pub data: &'a str,
    pub hash: &'a str,
    /// The two files that `pull` makes; the other two are its source's.
    pub made_data: &'a str,
    pub made_hash: &'a str,
    /// The other file that is read: the script, or NEW.
    pub read: &'a str,
    pub address: &'a str,
    /// How many hash blocks are to be kept, as the option says.
    pub cache: &'a str,
    pub line: &'a str,
    /// FILE, which has the line or is to have it.
    pub own: LineSeen<'a>,
    /// The file of the line that a pull is to reach.
    pub source: LineSeen<'a>,
    pub data_size: u64,
    pub hash_size: u64,
    pub data_blocks: u64,
}

impl<'a> Parts<'a> {
    /// The path of one of the volume's files.
    pub fn path(&self, which: Which) -> &'a str {
        match which {
            Which::Data => self.data,
            Which::Hash => self.hash,
        }
    }

    /// Whether one of them is named by a URL, where the command reads devices at servers.
    pub fn may_be_far(&self, which: Which) -> bool {
        let reads = matches!(
            self.command,
            Command::Verify | Command::Serve | Command::Talk
        );
        reads && is_url(self.path(which))
    }

    /// The path of one of the two that `pull` makes.
    pub fn made_path(&self, which: Which) -> &'a str {
        match which {
            Which::Data => self.made_data,
            Which::Hash => self.made_hash,
        }
    }

    /// How many bytes a block of one of them has.
    pub fn size(&self, which: Which) -> u64 {
        match which {
            Which::Data => self.data_size,
            Which::Hash => self.hash_size,
        }
    }
}

/// What a command works on whose line stands in a file, as that is by now.
pub fn parts_with<'a>(request: Request<'a>, own: LineSeen<'a>, source: LineSeen<'a>) -> Parts<'a> {
    Parts {
        own,
        source,
        ..parts_of(with_lines(request, own.line(), source.line()))
    }
}

/// The words with the lines that their files hold.
fn with_lines<'a>(request: Request<'a>, own: &'a str, source: &'a str) -> Request<'a> {
    match request {
        Request::Verify(words) if words.table_file.is_some() => {
            Request::Verify(VerifyWords {
                table: own,
                ..words
            })
        }
        Request::Serve(words) if words.table_file.is_some() => {
            Request::Serve(ServeWords {
                table: own,
                ..words
            })
        }
        Request::Talk(words) if words.table_file.is_some() => {
            Request::Talk(TalkWords {
                table: own,
                ..words
            })
        }
        Request::Edit(words) if words.table_file.is_some() => Request::Edit(EditWords {
            table: Some(own),
            ..words
        }),
        Request::Update(words) if words.table_file.is_some() => Request::Update(UpdateWords {
            table: Some(own),
            ..words
        }),
        Request::Pull(words) if words.to_file.is_some() => {
            Request::Pull(PullWords {
                to: source,
                ..words
            })
        }
        request => request,
    }
}

/// What a command works on.
fn parts_of<'a>(request: Request<'a>) -> Parts<'a> {
    match request {
        Request::Scratch => Parts {
            read: "standard input",
            ..no_parts(Command::Edit)
        },
        Request::Format(words) => Parts {
            data: words.data_path,
            hash: words.hash_path,
            data_size: number_of(words.data_block_size),
            hash_size: number_of(words.hash_block_size),
            data_blocks: number_of(words.data_blocks.unwrap_or("")),
            ..no_parts(Command::Format)
        },
        Request::Dump(words) => Parts {
            hash: words.hash_path,
            ..no_parts(Command::Dump)
        },
        Request::Edit(words) => Parts {
            data: words.data_path,
            hash: words.hash_path,
            read: words.script_path,
            ..parts_of_line(Command::Edit, words.table.unwrap_or(""))
        },
        Request::Update(words) => Parts {
            data: words.data_path,
            hash: words.hash_path,
            read: words.new_path,
            ..parts_of_line(Command::Update, words.table.unwrap_or(""))
        },
        Request::Pull(words) => Parts {
            made_data: words.data_path,
            made_hash: words.hash_path,
            line: if words.table.is_some() { "" } else { words.to },
            ..parts_of_line(Command::Pull, words.to)
        },
        Request::Verify(words) => parts_of_line(Command::Verify, words.table),
        Request::Serve(words) => Parts {
            address: words.listen,
            cache: words.cache,
            ..parts_of_line(Command::Serve, words.table)
        },
        Request::Talk(words) => Parts {
            cache: words.cache,
            ..parts_of_line(Command::Talk, words.table)
        },
        Request::Recover(words) => Parts {
            data: words.data_path,
            hash: words.hash_path,
            ..no_parts(Command::Recover)
        },
    }
}

/// What a table line names, as far as it does.
fn parts_of_line<'a>(command: Command, line: &'a str) -> Parts<'a> {
    Parts {
        line,
        data: field(line, 1),
        hash: field(line, 2),
        data_size: number_of(field(line, 3)),
        hash_size: number_of(field(line, 4)),
        data_blocks: number_of(field(line, 5)),
        ..no_parts(command)
    }
}

/// A field of a table line by its number from 0 on; empty where there is none.
pub fn field(line: &str, index: usize) -> &str {
    line.split(' ').nth(index).unwrap_or("")
}

/// The number that a word is, or 0.
fn number_of(text: &str) -> u64 {
    text.parse::<u64>().unwrap_or(0)
}

fn no_parts<'a>(command: Command) -> Parts<'a> {
    Parts {
        command,
        data: "",
        hash: "",
        made_data: "",
        made_hash: "",
        read: "",
        address: "",
        cache: "",
        line: "",
        own: LineSeen::none(),
        source: LineSeen::none(),
        data_size: 0,
        hash_size: 0,
        data_blocks: 0,
    }
}
