//! Runs of blocks that are read into one buffer: block by block, or over a file at once.
ghost use Rattle.std.specs.Prelude.{◌≡◌, Some};

use crate::failing::{calls_of, failing_at};
use std::io;
use std::io::ErrorKind;
use std::test::Fail;
use test_stores::MemFile;
use verity_store::{BlockStore, FileStore, MemStore, RawFile};

/// A file in memory that can be read so often, and fails from then on.
#[derive(Drop)]
struct Few {
    file: MemFile,
    left: u64,
}

impl Few {
    fn new(bytes: Vec<u8>, left: u64) -> Few
        ensures { ⟦<Few as RawFile>⟧.bytes result ≡ Some bytes.items }
    {
        Few {
            file: MemFile::new(bytes),
            left,
        }
    }
}

impl RawFile for Few {
    ghost bytes = { λ f. ⟦<MemFile as RawFile>⟧.bytes f.file };

    ghost synced = { λ f. ⟦<MemFile as RawFile>⟧.synced f.file };

    fn byte_len(&self) -> io::Result<u64> {
        self.file.byte_len()
    }

    fn read_exact_at(&mut self, at: u64, out: &mut [u8]) -> io::Result<()> {
        if self.left == 0 {
            return Err(ErrorKind::Other.into());
        }
        self.left -= 1;
        self.file.read_exact_at(at, out)
    }

    fn write_all_at(&mut self, at: u64, block: &[u8]) -> io::Result<()> {
        self.file.write_all_at(at, block)
    }

    fn set_byte_len(&mut self, n: u64) -> io::Result<()> {
        self.file.set_byte_len(n)
    }

    fn sync(&mut self) -> io::Result<()> {
        self.file.sync()
    }
}

// Three blocks of 512 bytes, of which block n is filled with 5 + n.
fn three(rt: &HostRuntime) -> Result<Vec<u8>, Fail> {
    let mut bytes = vec![in rt.alloc(); 5u8; 512]?;
    bytes.resize(1024, 6)?;
    bytes.resize(1536, 7)?;
    Ok(bytes)
}

// The first and the last byte of the two blocks from block 1 on, where they can be read.
fn last_two<S: BlockStore>(store: &mut S) -> Option<(u8, u8)> {
    let mut run = [9u8; 1024];
    if store.block_size() != 512 || store.len() != 3 {
        return None;
    }
    match store.read_run(1, 2, &mut run) {
        Ok(()) => Some((run[0], run[1023])),
        Err(_) => None,
    }
}

#[test]
fn a_run_over_a_file_is_one_access(rt: HostRuntime) -> Result<(), Fail> {
    let mut store = FileStore::over(Few::new(three(&rt)?, 2), 512)?;
    let runs = (
        last_two(&mut store),
        last_two(&mut store),
        last_two(&mut store),
    );
    assert_eq!(rt; runs, (Some((6, 7)), Some((6, 7)), None));
    Ok(())
}

#[test]
fn a_run_over_memory_is_its_blocks(rt: HostRuntime) -> Result<(), Fail> {
    let mut store = MemStore::new(three(&rt)?, 512)?;
    assert_eq!(rt; last_two(&mut store), Some((6, 7)));
    Ok(())
}

// Of two runs, what each gives, and how many calls were made until then.
#[test]
fn a_run_ends_at_the_first_block_that_fails(rt: HostRuntime) -> Result<(), Fail> {
    let mut store = failing_at(MemStore::new(three(&rt)?, 512)?, 1);
    let first = (last_two(&mut store), calls_of(&store));
    let second = (last_two(&mut store), calls_of(&store));
    assert_eq!(rt; (first, second), ((None, 1), (Some((6, 7)), 3)));
    Ok(())
}
