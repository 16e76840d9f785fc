//! Stores in windows: the laws of a store hold, and the end of the device is the end of its growth.
ghost use Rattle.std.specs.Prelude.{◌≤◌};

use crate::device::Device;
use std::test::Fail;
use verity_store::{BlockStore, FileStore, StoreFault, Window};

const SIZE: usize = 512;

type DeviceStore = FileStore<Window<Device>>;

// A store of two blocks in a device of four, each byte of which is 77.
fn two_of_four(rt: &HostRuntime) -> Result<DeviceStore, Fail> {
    let bytes = vec![in rt.alloc(); 77u8; 4 * SIZE]?;
    let window = Window::new(Device::new(bytes), 4 * SIZE as u64, 2 * SIZE as u64);
    Ok(FileStore::over(window, SIZE)?)
}

// What the last byte of a block is, where it can be read.
fn last_byte<S: BlockStore>(store: &mut S, n: u64) -> Option<u8> {
    let mut block = [0; SIZE];
    if store.block_size() != SIZE || n >= store.len() {
        return None;
    }
    match store.read(n, &mut block) {
        Ok(()) => Some(block[SIZE - 1]),
        Err(_) => None,
    }
}

// What a length is answered, and how long the store is after it.
type Answer = (Result<(), StoreFault>, u64);

// What is seen of a store of which two lengths are asked, and which is synced then.
#[derive(Clone, Copy)]
struct Resized {
    answers: (Answer, Answer),
    // Whether a byte 5 was written all over block 0 after the first length; true where it wasn't asked for.
    writes: bool,
    synced: Result<(), StoreFault>,
    // The last bytes of blocks 0, 1 and 3 in the end.
    last: (Option<u8>, Option<u8>, Option<u8>),
}

// Whether block 0 takes a write.
fn takes_a_write<S: BlockStore>(store: &mut S) -> bool {
    store.block_size() == SIZE && store.len() > 0 && store.write(0, &[5; SIZE]).is_ok()
}

fn resize_twice<S: BlockStore>(store: &mut S, lens: (u64, u64), is_written: bool) -> Resized
    requires first { lens.0 ≤ 6 }
    requires second { lens.1 ≤ 6 }
{
    let first = (store.set_len(lens.0), store.len());
    let writes = !is_written || takes_a_write(store);
    let second = (store.set_len(lens.1), store.len());
    Resized {
        answers: (first, second),
        writes,
        synced: store.sync(),
        last: (
            last_byte(store, 0),
            last_byte(store, 1),
            last_byte(store, 3),
        ),
    }
}

// The same of two blocks in a device of four.
fn resize_two_of_four(rt: &HostRuntime, lens: (u64, u64), is_written: bool) -> Result<Resized, Fail>
    requires first { lens.0 ≤ 6 }
    requires second { lens.1 ≤ 6 }
{
    let mut store = two_of_four(rt)?;
    if store.len() != 2 {
        return Err(Fail::from("the store has two blocks"));
    }
    Ok(resize_twice(&mut store, lens, is_written))
}

#[test]
fn grows_up_to_the_end_by_zeros(rt: HostRuntime) -> Result<(), Fail> {
    let resized = resize_two_of_four(&rt, (4, 4), false)?;
    assert_eq!(rt;
        (resized.answers, resized.synced, resized.last),
        (
            ((Ok(()), 4), (Ok(()), 4)),
            Ok(()),
            (Some(77), Some(77), Some(0))
        )
    );
    Ok(())
}

#[test]
fn past_the_end_nothing_changes(rt: HostRuntime) -> Result<(), Fail> {
    let resized = resize_two_of_four(&rt, (5, 6), false)?;
    let past = (Err(StoreFault::Device), 2);
    assert_eq!(rt;
        (resized.answers, resized.last),
        ((past, past), (Some(77), Some(77), None))
    );
    Ok(())
}

#[test]
fn shrinks_and_takes_writes(rt: HostRuntime) -> Result<(), Fail> {
    let resized = resize_two_of_four(&rt, (1, 2), true)?;
    assert_eq!(rt;
        (resized.answers, resized.writes, resized.last),
        (((Ok(()), 1), (Ok(()), 2)), true, (Some(5), Some(0), None))
    );
    Ok(())
}
