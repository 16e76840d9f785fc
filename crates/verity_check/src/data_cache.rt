//! The cache of checked data blocks.
//!
//! Each kept block ends a chain of given blocks from the root, and so where the stores tell it is the content of its place.
ghost use Rattle.std.specs.Prelude.{◌≡◌, ◌⊎◌, ◌<◌, ◌≤◌, ◌+◌, ◌/◌, ◌%◌, ◌++◌, ℕ, List, length, take, drop, vec_len, vec_capacity};
ghost use Rattle.std.specs.Prelude.{true, false, None, IsTrue, IsFalse, IfOk};
ghost use Rattle.verity_check.specs.Cache.{IsCached, Keeps, Adds, IsKept};

use lru::LruCache;
use std::alloc::{AllocError, Allocator};
use std::num::NonZeroUsize;

/// Checked data blocks by their numbers, of which the ones used last stay.
pub(crate) type DataCache<A> = LruCache<u64, Vec<u8, A>, lru::DefaultHasher, A>;

/// A data cache with room for so many blocks, none of which it has yet; where that is 0 there is none.
pub(crate) fn data_cache_of<A: Allocator + Copy>(
    alloc: A,
    blocks: usize,
) -> Result<Option<DataCache<A>>, AllocError>
    ensures empty { IfOk result (λ data_cache. (n : ℕ) (b : List ℕ) → IsKept data_cache n b → ⊥) }
    ensures none { blocks ≡ 0 → IfOk result (λ data_cache. data_cache ≡ None) }
{
    match NonZeroUsize::new(blocks) {
        Some(capacity) => Ok(Some(LruCache::new(alloc, capacity)?)),
        None => Ok(None),
    }
}

// Copies data block `n` into `out`, which has room for it alone, where the cache has it. Whether it has.
fn copy_block<A: Allocator>(cache: &mut DataCache<A>, n: u64, out: &mut [u8]) -> bool
    requires { (b : List ℕ) → IsCached cache.old n b → length b ≡ length out.old }
    ensures found { IsTrue result → IsCached cache.old n out.new }
    ensures missing { IsFalse result → (b : List ℕ) → IsCached cache.old n b → ⊥ }
    ensures keeps { Keeps cache.old cache.new }
{
    match cache.get(&n) {
        Some(block) => {
            out.copy_from_slice(block);
            true
        }
        None => false,
    }
}

/// Copies data block `n` into `out`, which has room for it alone, where it is kept. Whether it is.
pub(crate) fn recall_block<A: Allocator>(
    data_cache: &mut Option<DataCache<A>>,
    n: u64,
    out: &mut [u8],
) -> bool
    requires { (b : List ℕ) → IsKept data_cache.old n b → length b ≡ length out.old }
    ensures found { IsTrue result → IsKept data_cache.old n out.new }
    ensures missing { IsFalse result → (b : List ℕ) → IsKept data_cache.old n b → ⊥ }
    ensures keeps { (m : ℕ) (b : List ℕ) → IsKept data_cache.new m b → IsKept data_cache.old m b }
{
    match data_cache {
        Some(cache) => copy_block(cache, n, out),
        None => false,
    }
}

// Puts a copy of a block into the cache. Where memory is refused it isn't there.
fn put_block<A: Allocator + Copy + Drop>(cache: &mut DataCache<A>, alloc: A, n: u64, block: &[u8])
    ensures { Adds cache.old cache.new n block.now }
{
    if let Ok(copy) = Vec::from_slice(alloc, block) {
        let _ = cache.put(n, copy);
    }
}

/// Keeps data block `n`, where there is a data cache. Where memory is refused it isn't kept.
pub(crate) fn remember_block<A: Allocator + Copy + Drop>(
    data_cache: &mut Option<DataCache<A>>,
    alloc: A,
    n: u64,
    block: &[u8],
)
    ensures { (m : ℕ) (b : List ℕ) → IsKept data_cache.new m b
        → IsKept data_cache.old m b ⊎ ((m ≡ n) × (b ≡ block.now)) }
{
    match data_cache {
        Some(cache) => put_block(cache, alloc, n, block),
        None => {}
    }
}

/// Whether data block `n` is kept.
pub(crate) fn is_kept<A: Allocator>(data_cache: &Option<DataCache<A>>, n: u64) -> bool {
    match data_cache {
        Some(cache) => cache.contains(&n),
        None => false,
    }
}

/// How many data blocks may be kept.
pub(crate) fn capacity_of_data<A: Allocator>(data_cache: &Option<DataCache<A>>) -> usize {
    match data_cache {
        Some(cache) => cache.cap().get(),
        None => 0,
    }
}

/// Whether a range of bytes isn't empty and lies in one block of `size` bytes.
pub(crate) fn lies_in_one(offset: u64, len: u64, size: u64) -> bool
    requires { 0 < size }
    ensures { result ≡ true → (0 < len) × (offset % size + len ≤ size) }
{
    if len == 0 || len > size {
        return false;
    }
    offset % size <= size - len
}

// Appends the `len` bytes from `skip` on of a block to `out`, which has room for them.
fn append_slice<B: Allocator>(block: &[u8], skip: usize, len: usize, out: &mut Vec<u8, B>)
    requires within { skip + len ≤ length block.now }
    requires spare { vec_len out.old + len ≤ vec_capacity out.old }
    ensures { out.new.items ≡ out.old.items ++ take len (drop skip block.now) }
{
    match out.extend_from_slice(&block[skip..skip + len]) {
        Ok(()) => {}
        Err(_) => unreachable!(),
    }
}

// Appends the `len` bytes from `skip` on of data block `n` to `out`, where the cache has it. Whether it has.
fn append_part<A: Allocator, B: Allocator>(
    cache: &mut DataCache<A>,
    n: u64,
    skip: usize,
    len: usize,
    out: &mut Vec<u8, B>,
) -> bool
    requires spare { vec_len out.old + len ≤ vec_capacity out.old }
    requires whole { (b : List ℕ) → IsCached cache.old n b → skip + len ≤ length b }
    ensures found { result ≡ true → (b : List ℕ) × IsCached cache.old n b × (out.new.items ≡ out.old.items ++ take len (drop skip b)) }
    ensures missing { result ≡ false → out.new ≡ out.old }
    ensures keeps { Keeps cache.old cache.new }
{
    match cache.get(&n) {
        Some(block) => {
            append_slice(block, skip, len, out);
            true
        }
        None => false,
    }
}

/// Appends a range of bytes to `out`, which has room for it, where it isn't empty and lies in one data block of `size` bytes that is kept.
/// Whether it does; else nothing is appended.
pub(crate) fn append_kept<A: Allocator, B: Allocator>(
    data_cache: &mut Option<DataCache<A>>,
    size: usize,
    offset: u64,
    len: usize,
    out: &mut Vec<u8, B>,
) -> bool
    requires size { 0 < size }
    requires spare { vec_len out.old + len ≤ vec_capacity out.old }
    requires whole { (n : ℕ) (b : List ℕ) → IsKept data_cache.old n b → length b ≡ size }
    ensures found { result ≡ true → (b : List ℕ) × IsKept data_cache.old (offset / size) b × (0 < len) × (offset % size + len ≤ size)
        × (out.new.items ≡ out.old.items ++ take len (drop (offset % size) b)) }
    ensures missing { result ≡ false → out.new ≡ out.old }
    ensures keeps { (m : ℕ) (b : List ℕ) → IsKept data_cache.new m b → IsKept data_cache.old m b }
{
    let wide = size as u64;
    if !lies_in_one(offset, len as u64, wide) {
        return false;
    }
    match data_cache {
        Some(cache) => append_part(cache, offset / wide, (offset % wide) as usize, len, out),
        None => false,
    }
}
