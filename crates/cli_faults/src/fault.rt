//! The numbered faults that the program prints.
ghost use Rattle.std.specs.Prelude.{◌≡◌, Some, option_map};
ghost use Rattle.cli_messages.specs.Numbers.{first_word, number_text};
ghost use Rattle.nbd_session.specs.Texts.{session_text};
ghost use Rattle.verity_build.specs.Texts.{build_text};
ghost use Rattle.verity_check.specs.Texts.{check_text};
ghost use Rattle.verity_digest.specs.Texts.{salt_text};
ghost use Rattle.verity_edit.specs.Texts.{edit_text};
ghost use Rattle.verity_geometry.specs.Texts.{geometry_text};
ghost use Rattle.verity_store.specs.Texts.{fault_text as store_text};
ghost use Rattle.verity_superblock.specs.Texts.{super_text, table_text};
ghost use Rattle.cli_faults.specs.Faults.{cause_text, fault_text, is_want};

use cli_messages::Number;
use nbd_session::SessionFault;
use std::fmt;
use thiserror::Error;
use verity_build::BuildFault;
use verity_check::CheckFault;
use verity_digest::SaltFault;
use verity_edit::EditFault;
use verity_geometry::GeometryFault;
use verity_store::{StoreFault, Which};
use verity_superblock::{SuperFault, TableFault};

/// A numbered fault: of a layer below, whose text it has, or S5 to S7, J1 or N6.
#[derive(Clone, Copy, Debug, PartialEq, Eq, Error)]
pub enum Fault {
    /// S1 to S4.
    Store(StoreFault),
    /// S5 and the store: another program works on it.
    InUse(Which),
    /// S5 and `new`: another program works on NEW.
    NewInUse,
    /// S6: a commit is under way in the journal.
    UnderWay,
    /// S7: the journal can't be used, or is none of this volume.
    Journal,
    /// G1 and G2.
    Salt(SaltFault),
    /// B1 to B10.
    Superblock(SuperFault),
    /// L1 to L9.
    Table(TableFault),
    /// U1 to U4.
    Build(BuildFault),
    /// J1: slices don't have each block of level 0 among them.
    Uncovered,
    /// V1 to V5.
    Check(CheckFault),
    /// E1 to E14.
    Edit(EditFault),
    /// P1 and P2.
    Session(SessionFault),
    /// N6: an address can't be read, a listener can't be bound, or a connection can't be accepted.
    Socket,
}

impl Fault {
    /// Whether it is want of memory.
    pub fn is_no_memory(self) -> bool
        ensures { result ≡ is_want self }
    {
        matches!(
            self,
            Fault::Store(StoreFault::NoMemory)
                | Fault::Salt(SaltFault::NoMemory)
                | Fault::Superblock(SuperFault::NoMemory)
                | Fault::Table(TableFault::NoMemory)
                | Fault::Build(BuildFault::NoMemory)
                | Fault::Check(CheckFault::NoMemory)
                | Fault::Edit(EditFault::NoMemory)
                | Fault::Edit(EditFault::Superblock(SuperFault::NoMemory))
                | Fault::Session(SessionFault::NoMemory)
        )
    }
}

impl Fault {
    /// Its number: the first word of its text.
    pub fn number(self) -> Number
        ensures { number_text result ≡ first_word (fault_text self) }
    {
        match self {
            Fault::Store(fault) => of_store(fault),
            Fault::InUse(_) | Fault::NewInUse => Number::S5,
            Fault::UnderWay => Number::S6,
            Fault::Journal => Number::S7,
            Fault::Salt(fault) => of_salt(fault),
            Fault::Superblock(fault) => of_superblock(fault),
            Fault::Table(fault) => of_table(fault),
            Fault::Build(fault) => of_build(fault),
            Fault::Uncovered => Number::J1,
            Fault::Check(fault) => of_check(fault),
            Fault::Edit(fault) => of_edit(fault),
            Fault::Session(fault) => of_session(fault),
            Fault::Socket => Number::N6,
        }
    }

    /// The number of the fault that it carries.
    pub fn cause(self) -> Option<Number>
        ensures { option_map number_text result ≡ option_map first_word (cause_text self) }
    {
        match self {
            Fault::Build(BuildFault::Geometry(fault)) => Some(of_geometry(fault)),
            Fault::Edit(EditFault::Superblock(fault)) => Some(of_superblock(fault)),
            _ => None,
        }
    }
}

fn of_store(fault: StoreFault) -> Number
    ensures { number_text result ≡ first_word (store_text fault) }
{
    match fault {
        StoreFault::Device => Number::S1,
        StoreFault::Ragged => Number::S2,
        StoreFault::NoMemory => Number::S3,
        StoreFault::BlockSize => Number::S4,
    }
}

fn of_salt(fault: SaltFault) -> Number
    ensures { number_text result ≡ first_word (salt_text fault) }
{
    match fault {
        SaltFault::TooLong => Number::G1,
        SaltFault::NoMemory => Number::G2,
    }
}

fn of_superblock(fault: SuperFault) -> Number
    ensures { number_text result ≡ first_word (super_text fault) }
{
    match fault {
        SuperFault::Short => Number::B1,
        SuperFault::Signature => Number::B2,
        SuperFault::Version => Number::B3,
        SuperFault::HashType => Number::B4,
        SuperFault::Algorithm => Number::B5,
        SuperFault::BadSize => Number::B6,
        SuperFault::BadCount => Number::B7,
        SuperFault::SaltSize => Number::B8,
        SuperFault::NoMemory => Number::B9,
        SuperFault::Offset => Number::B10,
    }
}

fn of_table(fault: TableFault) -> Number
    ensures { number_text result ≡ first_word (table_text fault) }
{
    match fault {
        TableFault::Fields => Number::L1,
        TableFault::Version => Number::L2,
        TableFault::Number => Number::L3,
        TableFault::Size => Number::L4,
        TableFault::Count => Number::L5,
        TableFault::Algorithm => Number::L6,
        TableFault::Digest => Number::L7,
        TableFault::Salt => Number::L8,
        TableFault::NoMemory => Number::L9,
    }
}

fn of_geometry(fault: GeometryFault) -> Number
    ensures { number_text result ≡ first_word (geometry_text fault) }
{
    match fault {
        GeometryFault::BadSize => Number::M1,
        GeometryFault::BadCount => Number::M2,
        GeometryFault::DigestSize => Number::M3,
    }
}

fn of_build(fault: BuildFault) -> Number
    ensures { number_text result ≡ first_word (build_text fault) }
{
    match fault {
        BuildFault::Geometry(_) => Number::U1,
        BuildFault::Store(_) => Number::U2,
        BuildFault::NoMemory => Number::U3,
        BuildFault::Offset => Number::U4,
    }
}

fn of_check(fault: CheckFault) -> Number
    ensures { number_text result ≡ first_word (check_text fault) }
{
    match fault {
        CheckFault::Lengths => Number::V1,
        CheckFault::Mismatch(_) => Number::V2,
        CheckFault::Store(_) => Number::V3,
        CheckFault::NoMemory => Number::V4,
        CheckFault::CacheSize => Number::V5,
    }
}

fn of_edit(fault: EditFault) -> Number
    ensures { number_text result ≡ first_word (edit_text fault) }
{
    match fault {
        EditFault::OutOfRange => Number::E1,
        EditFault::WrongLength => Number::E2,
        EditFault::TooSmall => Number::E3,
        EditFault::TooLarge => Number::E4,
        EditFault::NoMemory => Number::E5,
        EditFault::Store(_) => Number::E6,
        EditFault::Broken => Number::E7,
        EditFault::Mismatch { .. } => Number::E8,
        EditFault::Superblock(_) => Number::E9,
        EditFault::DataLength => Number::E10,
        EditFault::StoreSize(_) => Number::E11,
        EditFault::Offset => Number::E12,
        EditFault::Line => Number::E13,
        EditFault::Untrusted { .. } => Number::E14,
    }
}

fn of_session(fault: SessionFault) -> Number
    ensures { number_text result ≡ first_word (session_text fault) }
{
    match fault {
        SessionFault::NameLength => Number::P1,
        SessionFault::NoMemory => Number::P2,
    }
}

impl fmt::Display for Fault {
    ghost output = { λ fault. Some (fault_text fault) };

    fn fmt<W: fmt::Write>(&self, f: &mut fmt::Formatter<W>) -> fmt::Result {
        match self {
            Fault::Store(fault) => write!(f, "{fault}"),
            Fault::InUse(which) => write!(f, "S5 {which}"),
            Fault::NewInUse => f.write_str("S5 new"),
            Fault::Salt(fault) => write!(f, "{fault}"),
            Fault::Superblock(fault) => write!(f, "{fault}"),
            Fault::Table(fault) => write!(f, "{fault}"),
            Fault::Build(fault) => write!(f, "{fault}"),
            Fault::Check(fault) => write!(f, "{fault}"),
            Fault::Edit(fault) => write!(f, "{fault}"),
            Fault::Session(fault) => write!(f, "{fault}"),
            Fault::UnderWay => f.write_str("S6"),
            Fault::Journal => f.write_str("S7"),
            Fault::Uncovered => f.write_str("J1"),
            Fault::Socket => f.write_str("N6"),
        }
    }
}

impl From<StoreFault> for Fault {
    ghost use Rattle.cli_faults.specs.declared.fault.Fault.TheVariants.{Store};

    ghost from_gives = { λ fault f. f ≡ Store fault };

    fn from(fault: StoreFault) -> Fault {
        Fault::Store(fault)
    }
}

impl From<SuperFault> for Fault {
    ghost use Rattle.cli_faults.specs.declared.fault.Fault.TheVariants.{Superblock};

    ghost from_gives = { λ fault f. f ≡ Superblock fault };

    fn from(fault: SuperFault) -> Fault {
        Fault::Superblock(fault)
    }
}
