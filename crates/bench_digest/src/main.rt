//! Times the digests of a file's blocks, which it holds in memory: the bare loops beside which `format` and `verify` are measured.
#![tactic(auto)]

use sha2::{Digest, Sha256, Sha512};
use std::time::Instant;
use std::{env, fs, io};
use verity_digest_lanes::{digest_eight, digest_four};

// The first byte of a block's digest.
fn first_byte(block: &[u8], salt: &[u8], wide: bool) -> u8 {
    if wide {
        let mut hasher = Sha512::new();
        hasher.update(salt);
        hasher.update(block);
        hasher.finalize()[0]
    } else {
        let mut hasher = Sha256::new();
        hasher.update(salt);
        hasher.update(block);
        hasher.finalize()[0]
    }
}

// The digests of all blocks, of which one byte each is kept so that none can be left out.
fn digest_all(bytes: &[u8], block_size: usize, salt: &[u8], wide: bool) -> u8 {
    let mut mixed = 0;
    if block_size == 0 {
        return mixed;
    }
    for block in bytes.chunks(block_size) {
        mixed ^= first_byte(block, salt, wide);
    }
    mixed
}

// The same, of eight blocks at a time, or of four by SHA-512.
fn digest_in_lanes(bytes: &[u8], block_size: usize, salt: &[u8], wide: bool) -> u8 {
    let mut mixed = 0;
    if block_size == 0 || block_size > 1 << 20 {
        return mixed;
    }
    if wide {
        for blocks in bytes.chunks(4 * block_size) {
            if blocks.len() == 4 * block_size {
                for digest in digest_four(salt, blocks, block_size) {
                    mixed ^= digest[0];
                }
            } else {
                mixed ^= digest_all(blocks, block_size, salt, wide);
            }
        }
    } else {
        for blocks in bytes.chunks(8 * block_size) {
            if blocks.len() == 8 * block_size {
                for digest in digest_eight(salt, blocks, block_size) {
                    mixed ^= digest[0];
                }
            } else {
                mixed ^= digest_all(blocks, block_size, salt, wide);
            }
        }
    }
    mixed
}

fn timed(
    rt: &HostRuntime,
    path: &str,
    block_size: usize,
    salt: &str,
    wide: bool,
    in_lanes: bool,
) -> io::Result<()> {
    let bytes = fs::read(rt, path)?;
    let Ok(salt) = hex::decode(rt.alloc(), salt) else {
        return println!(rt; "the salt is not hexadecimal");
    };
    let start = Instant::now(rt)?;
    let mixed = if in_lanes {
        digest_in_lanes(&bytes, block_size, &salt, wide)
    } else {
        digest_all(&bytes, block_size, &salt, wide)
    };
    let micros = start.elapsed(rt)?.as_micros();
    let count = bytes.len();
    println!(rt; "bytes={count} us={micros} mixed={mixed:02x}")
}

fn main(rt: HostRuntime) -> io::Result<()> {
    let mut words = env::args(&rt)?;
    let _ = words.next();
    let (Some(path), Some(size), Some(salt), Some(algorithm)) = (
        words.next(),
        words.next(),
        words.next(),
        words.next(),
    ) else {
        return println!(rt; "bench_digest FILE BLOCK_SIZE SALT sha256|sha512 [lanes]");
    };
    let wide = &*algorithm == "sha512";
    let in_lanes = words.next().is_some();
    timed(
        &rt,
        &path,
        size.parse::<usize>().unwrap_or(4096),
        &salt,
        wide,
        in_lanes,
    )
}
