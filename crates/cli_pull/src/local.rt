//! DATA and HASH, which are made where they aren't there.
ghost use Rattle.std.specs.Prelude.{◌≡◌, ◌+◌, ◌↔◌, IsTrue, IfOk, OnOk};
ghost use Rattle.verity_chain.specs.Table.{tree_len};
ghost use Rattle.cli_faults.specs.Commands.{lock_of};
ghost use Rattle.cli_faults.specs.declared.command.Command.TheVariants as command;
ghost use Rattle.os_files.specs.declared.identity.Identity.{Identity};
ghost use Rattle.os_files.specs.declared.part.Part.TheVariants as part;
ghost use Rattle.cli_pull.specs.Opening.{AreApart, IsOpened, IsOther, IsOwnAt};

use crate::source::Source;
use cli_arguments::PullWords;
use cli_faults::{Command, Failure, Word};
use os_files::{Identity, Part, System};
use verity_chain::Tree;
use verity_store::{BlockStore, Which};

/// The stores over DATA and HASH, and which of these were made.
#[derive(Drop)]
pub struct Local<D: BlockStore + Drop> {
    pub data_store: D,
    pub hash_store: D,
    pub makes_data: bool,
    pub makes_hash: bool,
}

/// One of the two files: where it stands, which blocks of it are the volume's, of how many bytes, and the word that is blamed where it is
/// another's.
#[derive(Clone, Copy)]
struct Own<'a> {
    path: &'a str,
    which: Which,
    part: Part,
    size: usize,
    word: Word,
}

/// The files that one of the two isn't to be.
#[derive(Clone, Copy)]
struct Others {
    source_data: Identity,
    source_hash: Identity,
    own: Identity,
}

impl Others {
    /// The source's files, and one of the two.
    fn of<D: BlockStore + Drop>(source: &Source<D>, own: Identity) -> Others
        ensures { result ≡ record { source_data = source.now.data_file; source_hash = source.now.hash_file; own = own } }
    {
        Others {
            source_data: source.data_file,
            source_hash: source.hash_file,
            own,
        }
    }
}

/// Whether a file is none of three others.
fn is_other(file: Identity, others: Others) -> bool
    ensures { IsTrue result ↔ IsOther others file }
{
    file != others.source_data && file != others.source_hash && file != others.own
}

/// Opens DATA, then HASH, or makes them. S1, S2 of either; S5 where another has a lock on it; DATA or HASH isn't understood where it is one
/// of the source's files, nor HASH where it is DATA. Of a file all of it is the store's, as it stands; of a device the blocks that the
/// volume takes.
pub fn open_local<S: System>(
    system: &mut S,
    words: &PullWords<'_>,
    tree: &Tree,
    source: &Source<S::Store>,
) -> Result<Local<S::Store>, Failure>
    ensures opened { IfOk result (λ local. (image : Identity) × (device : Identity)
        × IsOpened S.System system.old system.new words.now.data_path.now words.now.hash_path.now (part.AtMost tree.now.data_blocks)
        (part.AtMost (tree.now.hash_start_block + tree_len tree.now)) local.data_store local.hash_store image device
        × AreApart source.now.data_file source.now.hash_file image device) }
    ensures data_size { IfOk result (λ local. S.Store.size local.data_store ≡ tree.now.data_block_size) }
    ensures hash_size { IfOk result (λ local. S.Store.size local.hash_store ≡ tree.now.hash_block_size) }
{
    let table = tree.table();
    let own_data = Own {
        path: words.data_path,
        which: Which::Data,
        part: Part::AtMost(table.data_blocks()),
        size: table.data_block_size(),
        word: Word::Data,
    };
    let own_hash = Own {
        path: words.hash_path,
        which: Which::Hash,
        part: Part::AtMost(tree.end()),
        size: table.hash_block_size(),
        word: Word::Hash,
    };
    let (data_store, data_file, makes_data) = open_own(
        system,
        &own_data,
        Others::of(source, source.hash_file),
    )?;
    match open_own(system, &own_hash, Others::of(source, data_file)) {
        Ok((hash_store, _, makes_hash)) => Ok(Local {
            data_store,
            hash_store,
            makes_data,
            makes_hash,
        }),
        Err(failure) => {
            drop(data_store);
            unmake(system, words, makes_data, false);
            Err(failure)
        }
    }
}

/// Looks whether DATA and HASH, where they are there, will be opened: S1, S5, and not understood, as [`open_local`] has these. Nothing is
/// changed, and no lock is kept.
pub fn look_at_local<S: System>(
    system: &S,
    words: &PullWords<'_>,
    source: &Source<S::Store>,
) -> Result<(), Failure> {
    let others = Others::of(source, source.hash_file);
    let own = look_at(system, words.data_path, Which::Data, others)?;
    let others = Others::of(source, own.unwrap_or(source.hash_file));
    look_at(system, words.hash_path, Which::Hash, others)?;
    Ok(())
}

/// Which file one of the two is, where it is there and none of three others, and nobody has a lock on it.
fn look_at<S: System>(
    system: &S,
    path: &str,
    which: Which,
    others: Others,
) -> Result<Option<Identity>, Failure> {
    if !system.is_there(path)? {
        return Ok(None);
    }
    let file = system.open(path)?;
    let identity = system.identity_of(&file);
    if !is_other(identity, others) {
        return Err(Failure::Word(match which {
            Which::Data => Word::Data,
            Which::Hash => Word::Hash,
        }));
    }
    system.lock(&file, Command::Pull.lock(), which)?;
    Ok(Some(identity))
}

/// Removes those of the two files that were made, where nothing was written to them.
pub fn unmake<S: System>(
    system: &mut S,
    words: &PullWords<'_>,
    makes_data: bool,
    makes_hash: bool,
) {
    if makes_data {
        system.unmake(words.data_path);
    }
    if makes_hash {
        system.unmake(words.hash_path);
    }
}

/// A store over one of the two files, which is none of three others, which file it is, and whether it was made. Another's lock is S5.
/// One that was made is removed where it isn't opened then.
fn open_own<S: System>(
    system: &mut S,
    own: &Own<'_>,
    others: Others,
) -> Result<(S::Store, Identity, bool), Failure>
    ensures opened { IfOk result (λ opened. IsOwnAt S.System system.old own.now.path.now own.now.part opened.0 opened.1 system.new) }
    ensures size { IfOk result (λ opened. S.Store.size opened.0 ≡ own.now.size) }
    ensures apart { IfOk result (λ opened. IsOther others opened.1) }
{
    let (file, is_new) = system.open_to_write(own.path, true)?;
    let identity = system.identity_of(&file);
    match store_over(system, own, file, identity, others) {
        Ok(store) => Ok((store, identity, is_new)),
        Err(failure) => {
            if is_new {
                system.unmake(own.path);
            }
            Err(failure)
        }
    }
}

/// A store over what was opened, once it is found to be none of the others, and locked.
fn store_over<S: System>(
    system: &S,
    own: &Own<'_>,
    file: S::File,
    identity: Identity,
    others: Others,
) -> Result<S::Store, Failure>
    ensures other { OnOk result (IsOther others identity) }
    ensures locked { OnOk result (S.locks system.now file (lock_of command.Pull)) }
    ensures lies { IfOk result (S.lies system.now file own.now.part) }
    ensures size { IfOk result (λ store. S.Store.size store ≡ own.now.size) }
{
    if !is_other(identity, others) {
        return Err(Failure::Word(own.word));
    }
    system.lock(&file, Command::Pull.lock(), own.which)?;
    Ok(system.store(file, own.part, own.size)?)
}
