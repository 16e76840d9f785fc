//! What a volume shows at the place that a table line names for its superblock.
ghost use Rattle.std.specs.Prelude.{◌≡◌, ◌↔◌, true, IsTrue, IfOk, IfErr};
ghost use Rattle.cli_faults.specs.Errors.{IsS1For};
ghost use Rattle.verity_profile.specs.Profile.{IsBlockSize};
ghost use Rattle.cli_line_file.specs.Looking.{AreStores, IsBroken, IsLook, IsNoSuperblock, IsOf, IsOver, IsSuperblock};

use crate::faults::{fault_of_top, level_of_top};
use cli_faults::{Failure, Fault};
use os_files::{Part, System};
use verity_edit::EditFault;
use verity_line_file::{Shown, ShownFault};
use verity_store::Which;
use verity_superblock::{SuperFault, Superblock, Table};

/// The bytes of a superblock.
const SUPERBLOCK_SIZE: u64 = 512;

/// What was found of a volume by a table line.
#[derive(Drop)]
pub(crate) enum Look {
    /// What it shows, and the fault of its top block, where that is another than FILE's line names.
    Shown(Shown, EditFault),
    /// It shows nothing by that line.
    Absent(EditFault),
}

/// What the volume at two paths shows by a table line, by the files that are locked there: it reads 512 bytes in front of the line's tree,
/// and the top block. E6 with the store that can't be read, S1 to S4 where it can't be opened; want of memory.
pub(crate) fn look_by<S: System>(
    system: &S,
    data_path: &str,
    hash_path: &str,
    image: &S::File,
    device: &S::File,
    table: &Table,
) -> Result<Look, Failure>
    ensures found { IfOk result (IsLook S.System S.Store.BlockStore system.now data_path.now hash_path.now image.now device.now
        table.now) }
    ensures refused { IfErr result IsBroken }
    ensures system { IfErr result (IsS1For (S.refuses system.now ≡ true)) }
{
    let superblock = match superblock_by(system, device, table)? {
        Ok(superblock) => superblock,
        Err(fault) => return Ok(Look::Absent(fault)),
    };
    if superblock.hash_block_size() != table.hash_block_size() {
        return Ok(Look::Absent(EditFault::Line));
    }
    let top = fault_of_top(&superblock);
    let level = level_of_top(&superblock);
    let (mut data_store, mut hash_store) = stores_of(
        system,
        data_path,
        hash_path,
        image,
        device,
        &superblock,
    )?;
    let shown = Shown::read(
        system.alloc(),
        superblock,
        table.hash_start_block(),
        &mut data_store,
        &mut hash_store,
    );
    match shown {
        Ok(shown) => Ok(Look::Shown(shown, top)),
        Err(ShownFault::Short(Which::Data)) => Ok(Look::Absent(EditFault::DataLength)),
        Err(ShownFault::Short(Which::Hash)) => {
            Ok(Look::Absent(EditFault::Untrusted { level, index: 0 }))
        }
        Err(ShownFault::Store(which)) => Err(Fault::Edit(EditFault::Store(which)).into()),
        Err(ShownFault::NoMemory) => Err(Failure::NoMemory),
    }
}

/// The superblock in front of the tree of a table line. E13 where none can stand there, E9 where none does.
fn superblock_by<S: System>(
    system: &S,
    device: &S::File,
    table: &Table,
) -> Result<Result<Superblock, EditFault>, Failure>
    ensures found { IfOk result (λ found. IfOk found (IsSuperblock S.System system.now device.now table.now)) }
    ensures absent { IfOk result (λ found. IfErr found (IsNoSuperblock S.System system.now device.now table.now)) }
    ensures refused { IfErr result IsBroken }
    ensures system { IfErr result (IsS1For (S.refuses system.now ≡ true)) }
{
    let start = table.hash_start_block();
    if start == 0 {
        return Ok(Err(EditFault::Line));
    }
    let place = (start - 1) * table.hash_block_size() as u64;
    let len = system.len_of(device);
    if len < SUPERBLOCK_SIZE || len - SUPERBLOCK_SIZE < place {
        return Ok(Err(EditFault::Superblock(SuperFault::Short)));
    }
    let mut block = [0; SUPERBLOCK_SIZE as usize];
    if system.read_at(device, place, &mut block).is_err() {
        return Err(Fault::Edit(EditFault::Store(Which::Hash)).into());
    }
    match Superblock::decode(system.alloc(), &block) {
        Ok(superblock) => Ok(Ok(superblock)),
        Err(SuperFault::NoMemory) => Err(Failure::NoMemory),
        Err(fault) => Ok(Err(EditFault::Superblock(fault))),
    }
}

/// The stores of a volume over the files that are locked at its paths, opened once more. E6 where another file stands there by now.
fn stores_of<S: System>(
    system: &S,
    data_path: &str,
    hash_path: &str,
    image: &S::File,
    device: &S::File,
    superblock: &Superblock,
) -> Result<(S::Store, S::Store), Failure>
    ensures over { IfOk result (λ stores. AreStores S.System S.Store.BlockStore system.now data_path.now hash_path.now image.now device.now
        superblock.now stores.0 stores.1) }
    ensures refused { IfErr result IsBroken }
    ensures system { IfErr result (IsS1For (S.refuses system.now ≡ true)) }
{
    let data_store = store_at(
        system,
        data_path,
        image,
        Which::Data,
        superblock.data_blocks(),
        superblock.data_block_size(),
    )?;
    let hash_store = store_at(
        system,
        hash_path,
        device,
        Which::Hash,
        u64::MAX,
        superblock.hash_block_size(),
    )?;
    Ok((data_store, hash_store))
}

/// A store over the file that is locked at a path, opened once more; of a device over the first blocks, at most so many. E6 where another
/// file stands there by now.
fn store_at<S: System>(
    system: &S,
    path: &str,
    locked: &S::File,
    which: Which,
    blocks: u64,
    size: usize,
) -> Result<S::Store, Failure>
    requires { IsBlockSize size }
    ensures over { IfOk result (IsOver S.System S.Store.BlockStore system.now path.now locked.now blocks size) }
    ensures refused { IfErr result IsBroken }
    ensures system { IfErr result (IsS1For (S.refuses system.now ≡ true)) }
{
    let file = system.open(path)?;
    if system.identity_of(&file) != system.identity_of(locked) {
        return Err(Fault::Edit(EditFault::Store(which)).into());
    }
    Ok(system.store(file, Part::AtMost(blocks), size)?)
}

/// Whether the volume is that of a table line, by what was found of it.
pub(crate) fn is_of(look: &Look, table: &Table) -> bool
    ensures { IsTrue result ↔ IsOf look.now table.now }
{
    match look {
        Look::Shown(shown, _) => shown.shows(table),
        Look::Absent(_) => false,
    }
}
