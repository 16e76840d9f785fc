//! What the faults of a line's file are for a command.
ghost use Rattle.std.specs.Prelude.{◌≡◌, ◌-◌};
ghost use Rattle.verity_geometry.specs.Geometry.{levels_of};
ghost use Rattle.verity_plan.specs.Planning.{volume_shape};
ghost use Rattle.cli_line_file.specs.Faults.{folder_failure, line_failure, top_fault};

use cli_faults::{Failure, Fault};
use os_line_file::FolderFault;
use verity_edit::{EditFault, geometry_over};
use verity_line_file::LineFileFault;
use verity_store::StoreFault;
use verity_superblock::Superblock;

/// S1 where the folder refused, else want of memory.
pub(crate) fn failure_of_folder(fault: FolderFault) -> Failure
    ensures { result ≡ folder_failure fault }
{
    match fault {
        FolderFault::Device => Fault::Store(StoreFault::Device).into(),
        FolderFault::NoMemory => Failure::NoMemory,
    }
}

/// L1 to L9 where FILE holds no line; E13 where the volume has other values; `top` where its top block is another; S1 where the folder
/// refused; want of memory.
pub(crate) fn failure_of_line(fault: LineFileFault, top: EditFault) -> Failure
    ensures { result ≡ line_failure fault top }
{
    match fault {
        LineFileFault::Line(fault) => fault.into(),
        LineFileFault::Values => EditFault::Line.into(),
        LineFileFault::Top => top.into(),
        LineFileFault::Folder => Fault::Store(StoreFault::Device).into(),
        LineFileFault::NoMemory => Failure::NoMemory,
    }
}

/// The level of the top block of a volume's tree; 0 where it has one data block, above which there is none.
pub(crate) fn level_of_top(superblock: &Superblock) -> usize
    ensures { result ≡ levels_of (volume_shape superblock.now.params superblock.now.data_blocks) - 1 }
{
    let geometry = geometry_over(superblock, superblock.data_blocks());
    geometry.levels().saturating_sub(1)
}

/// E14 with the top block of a volume's tree; E13 where it has one data block.
pub(crate) fn fault_of_top(superblock: &Superblock) -> EditFault
    ensures { result ≡ top_fault (volume_shape superblock.now.params superblock.now.data_blocks) }
{
    if superblock.data_blocks() == 1 {
        return EditFault::Line;
    }
    EditFault::Untrusted {
        level: level_of_top(superblock),
        index: 0,
    }
}
