//! What a work takes beside an editor.
ghost use Rattle.std.specs.Prelude.{◌≡◌};

use crate::work::Words;
use cli_volume::{Devices, Sizes};
use os_host::Opened;

/// What the work takes beside an editor and its commits.
#[derive(Drop)]
pub(crate) struct Rest<'a> {
    /// HASH, to be read once more.
    pub(crate) again: Opened,
    pub(crate) devices: Devices<'a>,
}

pub(crate) fn rest_of<'a>(words: &Words<'a>, again: Opened, sizes: Sizes) -> Rest<'a>
    ensures data { result.devices.data_path.now ≡ words.now.data_path.now }
    ensures hash { result.devices.hash_path.now ≡ words.now.hash_path.now }
    ensures start { result.devices.hash_start_block ≡ sizes.hash_start_block }
{
    Rest {
        again,
        devices: devices_of(words, sizes),
    }
}

/// Where the volume's devices are, and how far they can grow.
fn devices_of<'a>(words: &Words<'a>, sizes: Sizes) -> Devices<'a>
    ensures data { result.data_path.now ≡ words.now.data_path.now }
    ensures hash { result.hash_path.now ≡ words.now.hash_path.now }
    ensures start { result.hash_start_block ≡ sizes.hash_start_block }
{
    Devices {
        data_path: words.data_path,
        hash_path: words.hash_path,
        hash_start_block: sizes.hash_start_block,
        data_room: sizes.data_room,
        hash_room: sizes.hash_room,
    }
}
