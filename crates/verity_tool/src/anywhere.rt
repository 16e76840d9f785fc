//! The commands that read devices here and at servers.
//!
//! The system's type is a deep one, so each is named in a function of its own that asks no more of what it is given than it needs.

use cli_arguments::{PullWords, ServeWords, TalkWords, UpdateWords, VerifyWords};
use cli_edit::update;
use cli_faults::Failure;
use cli_pull::pull_kept;
use cli_serve::{
    CountedReader, CountedWriter, serve_kept, talk_kept, verify_kept, verify_slice_kept,
};
use os_line_file::OsFolders;
use os_system::{Network, OsSystem};
use os_urls::{Notes, patience};
use std::fs::File;
use std::io::{Eprint, IsTerminal, Read, Write};
use std::net::{Net, TcpListener, TcpStream};
use std::rt::Files;
use std::time::Clock;

/// `verify` over the real system.
pub fn verify_anywhere<
    R: Files<File = File> + Net + Clock + Eprint + AllocGlobal,
    W: Write,
    E: IsTerminal,
>(
    rt: &R,
    words: &VerifyWords<'_>,
    notes: &Notes,
    output: &mut W,
    errors: &E,
) -> Result<u8, Failure> {
    let network = Network::new(rt, patience(words.timeout)?);
    verify_kept(
        rt,
        &OsSystem::new(rt, &network, notes),
        &mut OsFolders::new(rt),
        words,
        output,
        errors,
    )
}

/// `verify --slice` over the real system.
pub fn verify_slice_anywhere<
    R: Files<File = File> + Net + Clock + Eprint + AllocGlobal,
    W: Write,
    E: IsTerminal,
>(
    rt: &R,
    words: &VerifyWords<'_>,
    asked: &str,
    notes: &Notes,
    output: &mut W,
    errors: &E,
) -> Result<u8, Failure> {
    let network = Network::new(rt, patience(words.timeout)?);
    verify_slice_kept(
        rt,
        &OsSystem::new(rt, &network, notes),
        &mut OsFolders::new(rt),
        words,
        asked,
        output,
        errors,
    )
}

/// `serve` over the real system: clients come by the network of `rt`, and devices at servers are reached by that of `net`.
pub fn serve_anywhere<
    N: Files<File = File> + Net + Clock + AllocGlobal,
    R: Files<File = File>
        + Net<Stream = TcpStream, Listener = TcpListener>
        + Clock
        + Eprint
        + AllocGlobal,
    W: Write,
>(net: &N, rt: &R, words: &ServeWords<'_>, notes: &Notes, output: &mut W) -> Result<u8, Failure> {
    let network = Network::new(net, patience(words.timeout)?);
    serve_kept(
        rt,
        &OsSystem::new(net, &network, notes),
        &mut OsFolders::new(net),
        words,
        output,
    )
}

/// `talk` over the real system.
pub fn talk_anywhere<R: Files<File = File> + Net + Clock + AllocGlobal, I: Read, W: Write>(
    rt: &R,
    words: &TalkWords<'_>,
    notes: &Notes,
    input: &mut I,
    output: &mut W,
) -> Result<u8, Failure> {
    let network = Network::new(rt, patience(words.timeout)?);
    talk_kept(
        &OsSystem::new(rt, &network, notes),
        &mut OsFolders::new(rt),
        words,
        &mut CountedReader::new(input),
        &mut CountedWriter::new(output),
    )
}

/// `pull` over the real system: the source's devices may lie at servers.
pub fn pull_anywhere<
    R: Files<File = File> + Net + Clock + Eprint + AllocGlobal,
    W: Write,
    E: Write + IsTerminal,
>(
    rt: &R,
    words: &PullWords<'_>,
    notes: &Notes,
    output: &mut W,
    errors: &mut E,
) -> Result<(), Failure> {
    let network = Network::new(rt, patience(words.timeout)?);
    pull_kept(
        rt,
        &mut OsSystem::new(rt, &network, notes),
        &mut OsFolders::new(rt),
        words,
        output,
        errors,
    )
}

/// `update` over the real system: NEW may lie at a server.
pub fn update_anywhere<
    R: Files<File = File> + Net + Clock + Eprint + AllocGlobal,
    W: Write,
    E: Write + IsTerminal,
>(
    rt: &R,
    words: &UpdateWords<'_>,
    notes: &Notes,
    output: &mut W,
    errors: &mut E,
) -> Result<u8, Failure> {
    let network = Network::new(rt, patience(words.timeout)?);
    let sources = OsSystem::new(rt, &network, notes);
    update(rt, &mut OsFolders::new(rt), &sources, words, output, errors)
}
