//! What each command does to a volume's files.
ghost use Rattle.std.specs.Prelude.{◌≡◌};
ghost use Rattle.cli_faults.specs.Commands.{lock_of, writes};

use verity_store::Which;

/// The commands that work on files.
#[derive(Clone, Copy, Debug, PartialEq, Eq)]
pub enum Command {
    Format,
    Slice,
    Dump,
    Edit,
    Verify,
    Serve,
    Talk,
    Recover,
    Update,
    /// Of its own two files; it reads the source's as `Verify`.
    Pull,
}

/// Who else may work on a file.
#[derive(Clone, Copy, Debug, PartialEq, Eq)]
pub enum Lock {
    /// Whoever wants to.
    Open,
    /// Whoever only reads it.
    Shared,
    /// No other.
    Alone,
}

impl Command {
    /// Whether it writes to the file. One that it only reads is opened to be read, and no more.
    pub fn is_writing(self, which: Which) -> bool
        ensures { result ≡ writes self which }
    {
        match self {
            Command::Format => match which {
                Which::Data => false,
                Which::Hash => true,
            },
            Command::Slice => match which {
                Which::Data => false,
                Which::Hash => true,
            },
            Command::Edit => true,
            Command::Dump => false,
            Command::Verify => false,
            Command::Serve => false,
            Command::Talk => false,
            Command::Recover => true,
            Command::Update => true,
            Command::Pull => true,
        }
    }

    /// The lock that it has on both files as long as it works.
    pub fn lock(self) -> Lock
        ensures { result ≡ lock_of self }
    {
        match self {
            Command::Format => Lock::Alone,
            Command::Slice => Lock::Shared,
            Command::Dump => Lock::Open,
            Command::Edit => Lock::Alone,
            Command::Verify => Lock::Shared,
            Command::Serve => Lock::Shared,
            Command::Talk => Lock::Shared,
            Command::Recover => Lock::Alone,
            Command::Update => Lock::Alone,
            Command::Pull => Lock::Alone,
        }
    }
}
