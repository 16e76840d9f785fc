//! What each store does where all is well, and its faults.
ghost use Rattle.verity_store.specs.Stores.{IsOnlyRead};

use crate::failing::{calls_of, failing_at};
use std::alloc::Global;
use std::test::Fail;
use test_stores::{Answer, FailStore, MemFile, ScriptStore};
use verity_store::{Block, BlockStore, FileStore, MemStore, StoreFault, Which, move_run};

/// The first and the last byte of a block, where it can be read.
fn ends<S: BlockStore>(store: &mut S, n: u64) -> Option<(u8, u8)> {
    let mut block = [1u8; 512];
    if store.block_size() != 512 || store.len() <= n {
        return None;
    }
    match store.read(n, &mut block) {
        Ok(()) => Some((block[0], block[511])),
        Err(_) => None,
    }
}

/// A write is read back, a store grows by zeros and is cut, over any store of blocks of 512 bytes.
fn keeps_what_is_written<S: BlockStore>(store: &mut S) -> bool {
    store.block_size() == 512
        && store.set_len(3).is_ok()
        && store.len() == 3
        && store.write(0, &[7; 512]).is_ok()
        && store.sync().is_ok()
        && ends(store, 0) == Some((7, 7))
        && ends(store, 2) == Some((0, 0))
        && store.reserve(1).is_ok()
        && store.set_len(1).is_ok()
        && store.len() == 1
}

/// The first byte of a block, where it can be read.
fn first_byte<S: BlockStore>(store: &mut S, n: u64) -> Option<u8>
    ensures { IsOnlyRead S.BlockStore store.old store.new }
{
    let mut block = [0u8; 512];
    if store.block_size() != 512 || store.len() <= n {
        return None;
    }
    match store.read(n, &mut block) {
        Ok(()) => Some(block[0]),
        Err(_) => None,
    }
}

/// Fills block `n` with the byte `n`.
fn number<S: BlockStore>(store: &mut S, n: u8) -> bool {
    if store.block_size() != 512 || store.len() <= n as u64 {
        return false;
    }
    store.write(n as u64, &[n; 512]).is_ok()
}

/// Moves two blocks of a store of five.
fn moves_two<S: BlockStore>(store: &mut S, from: u64, to: u64) -> bool {
    if store.block_size() != 512 || store.len() != 5 || 3 < from || 3 < to {
        return false;
    }
    move_run(store, from, to, 2, &mut [0; 512]).is_ok()
}

/// The first byte of block 1, and whether the store then keeps what is written.
fn byte_and_whether_kept<S: BlockStore>(store: &mut S) -> (Option<u8>, bool) {
    (first_byte(store, 1), keeps_what_is_written(store))
}

#[test]
fn memory_keeps_what_is_written(rt: HostRuntime) -> Result<(), Fail> {
    let Ok(mut store) = MemStore::new(vec![in rt.alloc(); 5; 1024]?, 512) else {
        return Err(Fail::from("two whole blocks are a store"));
    };
    let seen = byte_and_whether_kept(&mut store);
    assert_eq!(rt;
        (seen, store.bytes()),
        ((Some(5), true), [7u8; 512].as_slice())
    );
    Ok(())
}

#[test]
fn a_wrong_size_comes_before_ragged_bytes(rt: HostRuntime) -> Result<(), Fail> {
    let ragged = MemStore::new(vec![in rt.alloc(); 5; 513]?, 512).err();
    let wrong = MemStore::new(vec![in rt.alloc(); 5; 513]?, 768).err();
    let zeroed = MemStore::zeroed(rt.alloc(), 1 << 20, 1).err();
    let (of_bytes, of_size) = (Some(StoreFault::Ragged), Some(StoreFault::BlockSize));
    assert_eq!(rt; (ragged, wrong, zeroed), (of_bytes, of_size, of_size));
    Ok(())
}

/// The first bytes of blocks 1 to 4.
fn first_bytes<S: BlockStore>(store: &mut S) -> [Option<u8>; 4] {
    [
        first_byte(store, 1),
        first_byte(store, 2),
        first_byte(store, 3),
        first_byte(store, 4),
    ]
}

/// Whether each of five blocks is filled with its number, two of them are moved up by one, and then two down by one.
fn moves_both_ways<S: BlockStore>(store: &mut S) -> bool {
    for n in 0..5 {
        if !number(store, n) {
            return false;
        }
    }
    moves_two(store, 1, 2)
        && first_bytes(store) == [Some(1), Some(1), Some(2), Some(4)]
        && moves_two(store, 3, 2)
        && first_bytes(store) == [Some(1), Some(2), Some(4), Some(4)]
}

#[test]
fn runs_are_moved_both_ways(rt: HostRuntime) -> Result<(), Fail> {
    let Ok(mut store) = MemStore::zeroed(rt.alloc(), 512, 5) else {
        return Err(Fail::from("memory was refused"));
    };
    assert!(rt; moves_both_ways(&mut store));
    Ok(())
}

/// Whether a store gives block 2, fails, gives block 4, and then fails again.
fn gives_twice<S: BlockStore>(store: &mut S) -> bool {
    first_byte(store, 2) == Some(3)
        && first_byte(store, 2) == None
        && first_byte(store, 4) == Some(4)
        && first_byte(store, 0) == None
}

/// An answer of so many bytes.
fn filled(alloc: Global, byte: u8, size: usize) -> Result<Answer, Fail> {
    Ok(Answer::Block(Block::new(vec![in alloc; byte; size]?)))
}

#[test]
fn a_script_is_given_in_order(rt: HostRuntime) -> Result<(), Fail> {
    let mut answers = Vec::new(rt.alloc());
    answers.push(filled(rt.alloc(), 3, 512)?)?;
    answers.push(Answer::Fault)?;
    answers.push(filled(rt.alloc(), 4, 512)?)?;
    let mut store = ScriptStore::new(rt.alloc(), 512, 5, answers)?;
    let gives = gives_twice(&mut store);
    let given = store.given();
    let are_its = matches!(given.first(), Some((2, _))) && matches!(given.last(), Some((4, _)));
    assert_eq!(rt; (gives, given.len(), are_its), (true, 2, true));
    Ok(())
}

#[test]
fn a_script_of_a_wrong_length_is_ragged(rt: HostRuntime) -> Result<(), Fail> {
    let mut answers = Vec::new(rt.alloc());
    answers.push(filled(rt.alloc(), 3, 511)?)?;
    let fault = ScriptStore::new(rt.alloc(), 512, 5, answers).err();
    assert_eq!(rt; fault, Some(StoreFault::Ragged));
    Ok(())
}

/// Whether the third call alone fails, a sync.
fn fails_its_third<S: BlockStore>(store: &mut S) -> bool {
    first_byte(store, 0) == Some(0)
        && store.sync() == Ok(())
        && store.sync() == Err(StoreFault::Device)
        && store.reserve(1) == Ok(())
        && store.set_len(1) == Ok(())
}

/// How many calls were counted and how many of them passed on, and the length that is left.
#[test]
fn the_third_call_fails_and_is_not_passed_on(rt: HostRuntime) -> Result<(), Fail> {
    let Ok(memory) = MemStore::zeroed(rt.alloc(), 512, 2) else {
        return Err(Fail::from("memory was refused"));
    };
    let mut store = FailStore::at(failing_at(memory, 0), 3);
    let fails = fails_its_third(&mut store);
    let counted = store.calls();
    let below = store.into_inner();
    let passed_on = calls_of(&below);
    let left = below.into_inner().len();
    assert_eq!(rt; (fails, counted, passed_on, left), (true, 4, 3, 1));
    Ok(())
}

/// Whether two reads are answered, none after them, and every sync.
fn gives_two_reads<S: BlockStore>(store: &mut S) -> bool {
    first_byte(store, 0) == Some(0)
        && store.sync() == Ok(())
        && first_byte(store, 1) == Some(0)
        && first_byte(store, 0) == None
        && first_byte(store, 1) == None
        && store.sync() == Ok(())
}

#[test]
fn reads_after_the_second_fail(rt: HostRuntime) -> Result<(), Fail> {
    let Ok(memory) = MemStore::zeroed(rt.alloc(), 512, 2) else {
        return Err(Fail::from("memory was refused"));
    };
    let mut store = FailStore::reads_after(memory, 2);
    let gives = gives_two_reads(&mut store);
    assert_eq!(rt; (gives, calls_of(&store)), (true, 6));
    Ok(())
}

#[test]
fn a_file_in_memory_keeps_what_is_written(rt: HostRuntime) -> Result<(), Fail> {
    let ragged = FileStore::over(MemFile::new(vec![in rt.alloc(); 6; 1025]?), 512).err();
    let Ok(mut store) = FileStore::over(MemFile::new(vec![in rt.alloc(); 6; 1024]?), 512) else {
        return Err(Fail::from("two whole blocks are a store"));
    };
    let seen = byte_and_whether_kept(&mut store);
    assert_eq!(rt; (seen, ragged), ((Some(6), true), Some(StoreFault::Ragged)));
    Ok(())
}

/// What is seen of a new file of blocks of 512 bytes.
#[derive(Clone, Copy, PartialEq, Eq, Debug)]
struct Seen {
    len: u64,
    keeps: bool,
    // Why it isn't opened as one of blocks of 1024 bytes, nor made as one of blocks of 500.
    refusals: [Option<StoreFault>; 2],
    // The first byte of block 0 after that, and in the file that is opened again.
    firsts: [Option<u8>; 2],
}

fn seen_of_a_real_file(rt: &HostRuntime) -> Result<Seen, Fail> {
    let Ok(mut store) = FileStore::create(rt, "scratch-store", 512) else {
        return Err(Fail::from("the file can be made"));
    };
    let len = store.len();
    let keeps = keeps_what_is_written(&mut store);
    let refusals = [
        FileStore::open(rt, "scratch-store", 1024, false).err(),
        FileStore::create(rt, "scratch-store", 500).err(),
    ];
    let first = first_byte(&mut store, 0);
    let Ok(mut again) = FileStore::open(rt, "scratch-store", 512, true) else {
        return Err(Fail::from("the file can be opened"));
    };
    Ok(Seen {
        len,
        keeps,
        refusals,
        firsts: [first, first_byte(&mut again, 0)],
    })
}

#[test]
fn a_real_file_keeps_what_is_written_and_is_refused_at_another_size(
    rt: HostRuntime,
) -> Result<(), Fail> {
    let expected = Seen {
        len: 0,
        keeps: true,
        refusals: [Some(StoreFault::Ragged), Some(StoreFault::BlockSize)],
        firsts: [Some(7), Some(7)],
    };
    assert_eq!(rt; seen_of_a_real_file(&rt)?, expected);
    Ok(())
}

#[test]
fn a_missing_file_is_a_failed_device(rt: HostRuntime) -> Result<(), Fail> {
    let missing = FileStore::open(&rt, "no-such-file", 512, false).err();
    assert_eq!(rt; missing, Some(StoreFault::Device));
    Ok(())
}

#[test]
fn faults_and_stores_have_their_texts(rt: HostRuntime) -> Result<(), Fail> {
    let texts = format!(in rt.alloc();
        "{} {} {} {}, {} {}",
        StoreFault::Device,
        StoreFault::Ragged,
        StoreFault::NoMemory,
        StoreFault::BlockSize,
        Which::Data,
        Which::Hash
    )?;
    assert_eq!(rt; texts.as_str(), "S1 S2 S3 S4, data hash");
    Ok(())
}
