//! What is refused when a volume is opened, where the program can't ask for it.

use crate::editors::opened_over;
use crate::volumes::volume_of;
use std::alloc::Global;
use std::test::Fail;
use test_volumes::BuiltVolume;
use verity_edit::EditFault;
use verity_store::{MemStore, Which};

fn fault_of(
    data_store: MemStore,
    hash_store: MemStore,
    alloc: Global,
) -> Result<Option<EditFault>, Fail> {
    Ok(opened_over(alloc, data_store, hash_store)?.opened.err())
}

// A store of the same bytes, in blocks of 1,024.
fn wide(alloc: Global, store: &MemStore) -> Result<MemStore, Fail> {
    Ok(MemStore::new(store.bytes().to_vec(alloc)?, 1024)?)
}

// How a volume is refused of which this store has blocks of 1,024 bytes.
fn fault_of_wide(alloc: Global, which: Which) -> Result<Option<EditFault>, Fail> {
    let BuiltVolume {
        data_store,
        hash_store,
        ..
    } = volume_of(alloc, 16)?;
    match which {
        Which::Data => {
            let wide = wide(alloc, &data_store)?;
            fault_of(wide, hash_store, alloc)
        }
        Which::Hash => {
            let wide = wide(alloc, &hash_store)?;
            fault_of(data_store, wide, alloc)
        }
    }
}

// The program takes the sizes of its stores from the superblock.
#[test]
fn a_store_of_another_size_is_refused(rt: HostRuntime) -> Result<(), Fail> {
    for which in [Which::Data, Which::Hash] {
        let fault = fault_of_wide(rt.alloc(), which)?;
        assert_eq!(rt; fault, Some(EditFault::StoreSize(which)), "{which}");
    }
    Ok(())
}
