//! What a comparison names first.
use crate::volumes::{numbered, params};
use std::alloc::Global;
use std::process::Abort;
use std::test::Fail;
use verity_build::{BuildParameters, Compared, build, compare};
use verity_digest::{Algorithm, Digest};
use verity_store::{BlockStore, MemStore};

fn spoil<S: BlockStore>(rt: &impl Abort, store: &mut S, n: u64) {
    assert!(rt; store.block_size() == 512);
    assert!(rt; n < store.len());
    assert!(rt; store.write(n, &[0x5a; 512]).is_ok());
}

fn cut<S: BlockStore>(rt: &impl Abort, store: &mut S, blocks: u64) {
    assert!(rt; blocks <= 8);
    assert!(rt; store.set_len(blocks).is_ok());
}

// The root hash of a volume, and what a comparison finds once these hash blocks are spoiled and the hash device is cut.
fn compare_spoiled<D: BlockStore, H: BlockStore>(
    rt: &impl Abort,
    params: &BuildParameters,
    alloc: Global,
    data_store: &mut D,
    hash_store: &mut H,
    (spoiled, cut_to): ([u64; 2], u64),
) -> Result<(Digest, Compared), Fail> {
    let root = build(alloc, data_store, hash_store, params)?;
    for n in spoiled {
        spoil(rt, hash_store, n);
    }
    cut(rt, hash_store, cut_to);
    Ok((root, compare(alloc, data_store, hash_store, params)?))
}

// The same over stores of 17 data blocks.
fn compare_row(
    rt: &impl Abort,
    alloc: Global,
    spoiled: [u64; 2],
    cut_to: u64,
) -> Result<(Digest, Compared), Fail> {
    let params = params(alloc, b"", Algorithm::Sha256)?;
    let mut data_store = numbered(alloc, 512, 17)?;
    let mut hash_store = MemStore::zeroed(alloc, 512, 0)?;
    compare_spoiled(
        rt,
        &params,
        alloc,
        &mut data_store,
        &mut hash_store,
        (spoiled, cut_to),
    )
}

// The tree of 17 data blocks: hash block 1 is the top, 2 and 3 are level 0. The superblock and what is behind the tree are no part of it.
#[test]
fn first_difference(rt: HostRuntime) -> Result<(), Fail> {
    for (spoiled, cut_to, differs) in [
        ([3, 3], 4, Some((0, 1))),
        ([2, 3], 4, Some((0, 0))),
        ([2, 1], 4, Some((1, 0))),
        ([0, 3], 4, Some((0, 1))),
        ([0, 0], 3, Some((0, 1))),
        ([0, 0], 2, Some((0, 0))),
        ([0, 2], 1, Some((1, 0))),
        ([0, 0], 6, None),
    ] {
        let (root, found) = compare_row(&rt, rt.alloc(), spoiled, cut_to)?;
        let expected = match differs {
            Some((level, index)) => Compared::Differs { level, index },
            None => Compared::Same(root),
        };
        assert_eq!(rt; found, expected, "cut to {cut_to}");
    }
    Ok(())
}
