//! Slices in an order, and then the join.
use std::alloc::Global;
use std::rt::HostRuntime;
use std::test::Fail;
use test_volumes::{numbered, params};
use verity_build::build_at;
use verity_slice::{Run, Slice};
use verity_slices::{JoinFault, build_joined, build_slice};
use verity_store::MemStore;

// What became of slices and a join, beside a build over the same hash store.
#[derive(Clone, Copy)]
struct Joined {
    is_built: bool,
    is_uncovered: bool,
}

// A hash store that has some blocks, none of them zeros.
fn some_blocks(alloc: Global, count: usize) -> Result<MemStore, Fail> {
    let bytes = Vec::from_elem(alloc, 7u8, count.saturating_mul(512))?;
    Ok(MemStore::new(bytes, 512)?)
}

// The slices of these numbers of so many, and the join, over `blocks` data blocks and a hash store of `held` blocks.
fn join(
    alloc: Global,
    blocks: usize,
    held: usize,
    offset: u64,
    order: &[u64],
    count: u64,
) -> Result<Joined, Fail> {
    let params = params(alloc)?;
    let mut data_store = numbered(alloc, blocks)?;
    let mut hash_store = some_blocks(alloc, held)?;
    let mut runs: Vec<Run> = Vec::new(alloc);
    for index in order {
        if let Some(slice) = Slice::new(*index, count) {
            let run = build_slice(
                alloc,
                &mut data_store,
                &mut hash_store,
                &params,
                offset,
                slice,
            )?;
            runs.push(run)?;
        }
    }
    let answer = build_joined(
        alloc,
        &mut data_store,
        &mut hash_store,
        &params,
        offset,
        &mut runs,
    );
    let mut other = some_blocks(alloc, held)?;
    let built = build_at(alloc, &mut data_store, &mut other, &params, offset);
    let is_built = match (&answer, &built) {
        (Ok(answer), Ok(built)) => *answer == *built && hash_store.bytes() == other.bytes(),
        _ => false,
    };
    Ok(Joined {
        is_built,
        is_uncovered: matches!(answer, Err(JoinFault::Uncovered)),
    })
}

#[test]
fn slices_in_any_order_are_a_build(rt: HostRuntime) -> Result<(), Fail> {
    let alloc = rt.alloc();
    for blocks in [1, 2, 16, 17, 255, 256, 257, 700] {
        for held in [0, 3, 100] {
            let joined = join(alloc, blocks, held, 1024, &[3, 1, 4, 2, 3], 4)?;
            assert!(&rt; joined.is_built);
        }
    }
    Ok(())
}

#[test]
fn one_slice_and_more_than_there_are_blocks(rt: HostRuntime) -> Result<(), Fail> {
    let alloc = rt.alloc();
    let one = join(alloc, 300, 0, 0, &[1], 1)?;
    assert!(&rt; one.is_built);
    let many = join(alloc, 40, 0, 512, &[7, 6, 5, 4, 3, 2, 1], 7)?;
    assert!(&rt; many.is_built);
    Ok(())
}

#[test]
fn a_slice_left_out_is_j1(rt: HostRuntime) -> Result<(), Fail> {
    let alloc = rt.alloc();
    let joined = join(alloc, 300, 0, 0, &[1, 2, 4], 4)?;
    assert!(&rt; joined.is_uncovered);
    Ok(())
}
