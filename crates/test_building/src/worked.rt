use std::process::Abort;
use std::test::Fail;
use verity_geometry::{Geometry, GeometryFault};

/// A volume with data and hash blocks of one size: the lengths and the starts of its levels on the hash device, from
/// the top, and the device's hash blocks with the superblock's.
#[derive(Clone, Copy)]
struct Row<'a> {
    size: usize,
    count: u64,
    digest_size: usize,
    lengths: &'a [u64],
    starts: &'a [u64],
    whole: u64,
}

fn check(rt: &impl Abort, row: &Row<'_>) -> Result<(), GeometryFault> {
    let geometry = Geometry::with_digest(row.size, row.size, row.count, row.digest_size)?;
    let levels = geometry.levels();
    assert_eq!(rt;
        (levels, geometry.total() + 1),
        (row.lengths.len(), row.whole)
    );
    for i in 0..levels {
        let level = levels - 1 - i;
        let found = (
            geometry.level_len(level),
            1 + geometry.level_start(level),
            1 + geometry.place(level, 0),
        );
        let start = row.starts.get(i).copied().unwrap_or(0);
        let length = row.lengths.get(i).copied().unwrap_or(0);
        assert_eq!(rt; found, (length, start, start));
    }
    Ok(())
}

#[test]
fn worked_volumes(rt: HostRuntime) -> Result<(), Fail> {
    let rows = [
        Row {
            size: 512,
            count: 1,
            digest_size: 32,
            lengths: &[],
            starts: &[],
            whole: 1,
        },
        Row {
            size: 512,
            count: 2,
            digest_size: 32,
            lengths: &[1],
            starts: &[1],
            whole: 2,
        },
        Row {
            size: 512,
            count: 16,
            digest_size: 32,
            lengths: &[1],
            starts: &[1],
            whole: 2,
        },
        Row {
            size: 512,
            count: 17,
            digest_size: 32,
            lengths: &[1, 2],
            starts: &[1, 2],
            whole: 4,
        },
        Row {
            size: 512,
            count: 256,
            digest_size: 32,
            lengths: &[1, 16],
            starts: &[1, 2],
            whole: 18,
        },
        Row {
            size: 512,
            count: 257,
            digest_size: 32,
            lengths: &[1, 2, 17],
            starts: &[1, 2, 4],
            whole: 21,
        },
        Row {
            size: 4096,
            count: 128,
            digest_size: 32,
            lengths: &[1],
            starts: &[1],
            whole: 2,
        },
        Row {
            size: 4096,
            count: 262_144,
            digest_size: 32,
            lengths: &[1, 16, 2048],
            starts: &[1, 2, 18],
            whole: 2066,
        },
        Row {
            size: 512,
            count: 8,
            digest_size: 64,
            lengths: &[1],
            starts: &[1],
            whole: 2,
        },
        Row {
            size: 512,
            count: 9,
            digest_size: 64,
            lengths: &[1, 2],
            starts: &[1, 2],
            whole: 4,
        },
        Row {
            size: 4096,
            count: 262_144,
            digest_size: 64,
            lengths: &[1, 64, 4096],
            starts: &[1, 2, 66],
            whole: 4162,
        },
    ];
    for row in &rows {
        check(&rt, row)?;
    }
    Ok(())
}

fn check_places(rt: &impl Abort, geometry: &Geometry) {
    assert_eq!(rt; geometry.blocks(), 257);
    assert_eq!(rt; geometry.levels(), 3);
    assert_eq!(rt; geometry.level_len(0), 17);
    assert_eq!(rt; geometry.level_len(1), 2);
    let parents = (
        geometry.leaf_parent(256),
        geometry.parent(0, 16),
        geometry.parent(1, 1),
    );
    let above = (
        geometry.above(0, 256),
        geometry.above(1, 256),
        geometry.above(2, 256),
    );
    assert_eq!(rt;
        (parents, above, geometry.place(0, 16)),
        (((16, 0), (1, 0), (0, 1)), (16, 1, 0), 19)
    );
}

#[test]
fn parents_of_257_blocks(rt: HostRuntime) -> Result<(), Fail> {
    let geometry = Geometry::new(512, 512, 257)?;
    let sizes = [
        geometry.data_size(),
        geometry.hash_size(),
        geometry.digest_size(),
        geometry.per_block(),
    ];
    assert_eq!(rt; sizes.as_slice(), [512, 512, 32, 16].as_slice());
    check_places(&rt, &geometry);
    Ok(())
}

#[test]
fn largest_volumes(rt: HostRuntime) -> Result<(), Fail> {
    let narrow = Geometry::new(512, 512, 1 << 40)?;
    assert_eq!(rt; (narrow.levels(), narrow.total()), (10, 73_300_775_185));
    let wide = Geometry::with_digest(512, 512, 1 << 40, 64)?;
    assert_eq!(rt; (wide.levels(), wide.total()), (14, 157_073_089_683));
    let large = Geometry::new(524_288, 524_288, 1 << 40)?;
    assert_eq!(rt; large.levels(), 3);
    Ok(())
}

type Refusal = Option<GeometryFault>;

/// How a block size is refused: of data blocks, of hash blocks, and of both before a count and a digest's size that are wrong as well.
fn refusals_of_size(size: usize) -> (Refusal, Refusal, Refusal) {
    (
        Geometry::new(size, 512, 1).err(),
        Geometry::new(512, size, 1).err(),
        Geometry::with_digest(size, size, 0, 48).err(),
    )
}

/// How a count is refused, also before a digest's size that is wrong as well.
fn refusals_of_count(count: u64) -> (Refusal, Refusal) {
    (
        Geometry::new(512, 512, count).err(),
        Geometry::with_digest(512, 512, count, 48).err(),
    )
}

#[test]
fn refusals(rt: HostRuntime) {
    let (of_size, of_count) = (Some(GeometryFault::BadSize), Some(GeometryFault::BadCount));
    for size in [0, 256, 511, 513, 768, 1_048_576] {
        assert_eq!(rt; refusals_of_size(size), (of_size, of_size, of_size));
    }
    for count in [0, (1 << 40) + 1] {
        assert_eq!(rt; refusals_of_count(count), (of_count, of_count));
    }
    for size in [0, 31, 33, 48, 63, 65] {
        let refusal = Geometry::with_digest(512, 512, 1, size).err();
        assert_eq!(rt; refusal, Some(GeometryFault::DigestSize));
    }
    assert_eq!(rt; Geometry::new(524_288, 524_288, 1 << 40).err(), None);
}
