//! The numbers of the faults, and what each means.
ghost use Rattle.std.specs.Prelude.{◌≡◌, ◌<◌, length};
ghost use Rattle.cli_messages.specs.Numbers.{number_text};

use crate::meaning::Meaning;

/// The number of a fault, as it is printed.
#[derive(Clone, Copy, Debug, PartialEq, Eq)]
pub enum Number {
    // a store
    S1,
    S2,
    S3,
    S4,
    S5,
    S6,
    S7,
    // a salt
    G1,
    G2,
    // the numbers of a tree
    M1,
    M2,
    M3,
    // a superblock
    B1,
    B2,
    B3,
    B4,
    B5,
    B6,
    B7,
    B8,
    B9,
    B10,
    // a table line
    L1,
    L2,
    L3,
    L4,
    L5,
    L6,
    L7,
    L8,
    L9,
    // a hash device that is made or compared
    U1,
    U2,
    U3,
    U4,
    // slices that are joined
    J1,
    // an editor
    E1,
    E2,
    E3,
    E4,
    E5,
    E6,
    E7,
    E8,
    E9,
    E10,
    E11,
    E12,
    E13,
    E14,
    // a verifier
    V1,
    V2,
    V3,
    V4,
    V5,
    // a session that is not opened
    P1,
    P2,
    // many sessions
    H1,
    H2,
    H3,
    H4,
    // a session that ended early, and of sockets
    N1,
    N2,
    N3,
    N4,
    N5,
    N6,
}

impl Number {
    /// The number's text, what is wrong where it is printed, and what to do next.
    pub fn meaning(self) -> Meaning
        ensures number { result.number.now ≡ number_text self }
        ensures said { 0 < length result.what.now }
    {
        match self {
            Number::S1 => Meaning::new(
                "S1",
                "the device failed, or the file can't be opened or used",
            ),
            Number::S2 => Meaning::new("S2", "the length is no multiple of the block size"),
            Number::S3 => Meaning::new("S3", "memory was refused"),
            Number::S4 => Meaning::new("S4", "a block has a power of two from 512 to 524288 bytes"),
            Number::S5 => Meaning::new(
                "S5",
                "another run of the program is at work on this file",
            ).advising("wait for its end"),
            Number::S6 => Meaning::new(
                "S6",
                "a commit of this volume was cut short and stands in its journal",
            )
            .advising("run recover on DATA and HASH"),
            Number::S7 => Meaning::new(
                "S7",
                "the journal can't be used: it isn't a regular file, is none of this program and version, or is of another volume",
            )
            .advising(
                "it is left as it is: move it away, or, where --journal names it, name another; after a commit that failed, run recover",
            ),
            Number::G1 => Meaning::new("G1", "a salt has at most 256 bytes"),
            Number::G2 => Meaning::new("G2", "memory was refused"),
            Number::M1 => Meaning::new("M1", "a block size is no power of two from 512 to 524288"),
            Number::M2 => Meaning::new("M2", "the count of data blocks is 0 or over 2^40"),
            Number::M3 => Meaning::new("M3", "no digest has this size"),
            Number::B1 => Meaning::new("B1", "the file ends before the superblock does"),
            Number::B2 => Meaning::new("B2", "no signature: this is no superblock").advising(
                "name the hash device, and with --hash-offset where its superblock stands",
            ),
            Number::B3 => Meaning::new("B3", "the superblock's version isn't 1"),
            Number::B4 => Meaning::new("B4", "the hash type isn't 1"),
            Number::B5 => Meaning::new("B5", "the algorithm is neither sha256 nor sha512"),
            Number::B6 => Meaning::new(
                "B6",
                "the superblock names a block size that is no power of two from 512 to 524288",
            ),
            Number::B7 => Meaning::new(
                "B7",
                "the superblock's count of data blocks is 0 or over 2^40",
            ),
            Number::B8 => Meaning::new("B8", "the superblock's salt has more than 256 bytes"),
            Number::B9 => Meaning::new("B9", "memory was refused"),
            Number::B10 => Meaning::new("B10", "no superblock can stand at this offset").advising(
                "name a multiple of the hash block size",
            ),
            Number::L1 => Meaning::new(
                "L1",
                "a table line has ten fields, apart by one space each",
            ).advising("take the line that format, edit, update or pull printed, in quotes"),
            Number::L2 => Meaning::new("L2", "its version isn't 1"),
            Number::L3 => Meaning::new(
                "L3",
                "one of its four numbers isn't 1 to 20 decimal digits that fit 64 bits",
            ),
            Number::L4 => Meaning::new(
                "L4",
                "one of its block sizes is no power of two from 512 to 524288",
            ),
            Number::L5 => Meaning::new(
                "L5",
                "its count of data blocks is 0 or over 2^40, or its start block is over 2^40",
            ),
            Number::L6 => Meaning::new("L6", "its algorithm is neither sha256 nor sha512"),
            Number::L7 => Meaning::new(
                "L7",
                "its root hash hasn't as many hexadecimal digits as the algorithm's digests",
            ),
            Number::L8 => Meaning::new(
                "L8",
                "its salt is neither - nor an even number of hexadecimal digits, at most 512",
            ),
            Number::L9 => Meaning::new("L9", "memory was refused"),
            Number::U1 => Meaning::new("U1", "there is no tree over this many blocks"),
            Number::U2 => Meaning::new("U2", "a read or a write of this store failed"),
            Number::U3 => Meaning::new("U3", "memory was refused"),
            Number::U4 => Meaning::new("U4", "no superblock can stand at this offset").advising(
                "name a multiple of the hash block size",
            ),
            Number::J1 => Meaning::new("J1", "the slices leave blocks of level 0 out").advising(
                "make the slices that are missing, and join again",
            ),
            Number::E1 => Meaning::new("E1", "the block isn't below the count").advising(
                "grow the image first",
            ),
            Number::E2 => Meaning::new("E2", "a block is written whole"),
            Number::E3 => Meaning::new("E3", "an image shrinks to a smaller count, at least 1"),
            Number::E4 => Meaning::new("E4", "an image grows to a larger count, at most 2^40"),
            Number::E5 => Meaning::new("E5", "memory was refused; nothing was changed"),
            Number::E6 => Meaning::new("E6", "a read or a write of this store failed"),
            Number::E7 => Meaning::new("E7", "a commit failed past its first change").advising(
                "run recover; where the commit had no journal, make the hash device anew with format",
            ),
            Number::E8 => Meaning::new(
                "E8",
                "the tree isn't the data's; this is the first hash block that differs",
            )
            .advising(
                "was a commit cut short? where the image is what it should be, make the hash device anew with format",
            ),
            Number::E9 => Meaning::new("E9", "there is no superblock"),
            Number::E10 => Meaning::new(
                "E10",
                "the image hasn't as many blocks as the superblock says",
            )
            .advising(
                "was a commit cut short? where the image is what it should be, make the hash device anew with format",
            ),
            Number::E11 => Meaning::new("E11", "the store's block size isn't the superblock's"),
            Number::E12 => Meaning::new("E12", "no superblock can stand at this offset").advising(
                "name a multiple of the hash block size",
            ),
            Number::E13 => Meaning::new(
                "E13",
                "the superblock isn't that of the table line",
            ).advising("name the line that was printed for this volume last"),
            Number::E14 => Meaning::new(
                "E14",
                "the hash block at this place hasn't the digest that the table line leads to",
            )
            .advising(
                "name the line that was printed for this volume last; if it was, the hash device is damaged or was changed",
            ),
            Number::V1 => Meaning::new("V1", "the files don't fit the table line").advising(
                "name the files that were formatted, by the line that was printed for them last",
            ),
            Number::V2 => Meaning::new(
                "V2",
                "the block at this place hasn't the digest that is named for it",
            ),
            Number::V3 => Meaning::new("V3", "a read of this store failed"),
            Number::V4 => Meaning::new("V4", "memory was refused"),
            Number::V5 => Meaning::new(
                "V5",
                "a cache has at most 65536 blocks, and that of hash blocks at least 1",
            ),
            Number::P1 => Meaning::new("P1", "an export's name has 1 to 255 bytes"),
            Number::P2 => Meaning::new("P2", "memory was refused"),
            Number::H1 => Meaning::new("H1", "64 sessions are open"),
            Number::H2 => Meaning::new("H2", "memory was refused"),
            Number::H3 => Meaning::new("H3", "no such session is open"),
            Number::H4 => Meaning::new("H4", "2^32 sessions were opened").advising(
                "start the server anew",
            ),
            Number::N1 => Meaning::new("N1", "the client's bytes couldn't be read"),
            Number::N2 => Meaning::new("N2", "the client took no more bytes"),
            Number::N3 => Meaning::new("N3", "the session took more turns than the limit allows"),
            Number::N4 => Meaning::new("N4", "memory was refused to the session"),
            Number::N5 => Meaning::new("N5", "no session could be opened"),
            Number::N6 => Meaning::new("N6", "a socket couldn't be had or failed").advising(
                "name an address of this machine as HOST:PORT, whose port is free, or unix:PATH where no file is yet",
            ),
        }
    }
}
