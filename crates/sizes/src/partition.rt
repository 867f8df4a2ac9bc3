// How an object is cut into blocks, and how long a block is (src/common/partition.rs).
ghost use Rattle.std.specs.Prelude.{◌≡◌};
ghost use Rattle.sizes.specs.Words.{ceil};
ghost use Rattle.sizes.specs.Partition.{no_blocks, partition_of, block_length, reach};

use crate::numbers::Sbn;

// Symbol length E and largest block B, as the set-up or an object names them.
#[repr(C)]
#[derive(Clone, Copy)]
pub struct Sizes {
    pub e: u64,
    pub b: u64,
}

// Blocks 0 to nb_a_large - 1 have `large` symbols, the others `small`.
#[repr(C)]
#[derive(Clone, Copy)]
pub struct Partition {
    pub large: u64,
    pub small: u64,
    pub nb_a_large: u64,
    pub blocks: u64,
}

// a / b, rounded up; 0 where b is 0.
pub fn div_ceil(a: u64, b: u64) -> u64
    ensures { result ≡ ceil a b }
{
    if b == 0 {
        return 0;
    }
    let q = a / b;
    if a % b == 0 {
        return q;
    }
    q + 1
}

// The partition of nothing.
fn no_blocks() -> Partition
    ensures { result ≡ no_blocks }
{
    Partition {
        large: 0,
        small: 0,
        nb_a_large: 0,
        blocks: 0,
    }
}

// Cuts l bytes into symbols of e bytes and blocks of at most b symbols. All zeros where b, e or l is 0.
pub fn block_partitioning(b: u64, l: u64, e: u64) -> Partition
    ensures { result ≡ partition_of b l e }
{
    if b == 0 {
        return no_blocks();
    }
    if e == 0 {
        return no_blocks();
    }
    let t = div_ceil(l, e);
    if t == 0 {
        return no_blocks();
    }
    let n = div_ceil(t, b);
    let large = div_ceil(t, n);
    let small = t / n;
    Partition {
        large,
        small,
        nb_a_large: t - small * n,
        blocks: n,
    }
}

// How much of a block of `size` bytes that begins at `offset` lies below l.
fn reached(offset: u64, size: u64, l: u64) -> Option<u64>
    ensures { result ≡ reach offset size l }
{
    if offset >= l || size == 0 {
        return None;
    }
    Some(size.min(l - offset))
}

// A block's length in bytes. None where the block begins at l or later, is empty, or a number passes 64 bits.
pub fn block_length(p: Partition, l: u64, e: u64, sbn: Sbn) -> Option<u64>
    ensures { result ≡ block_length p l e sbn }
{
    let large_size = p.large.checked_mul(e)?;
    let small_size = p.small.checked_mul(e)?;
    let k = sbn.0 as u64;
    if k < p.nb_a_large {
        let offset = k.checked_mul(large_size)?;
        return reached(offset, large_size, l);
    }
    let small_offset = (k - p.nb_a_large).checked_mul(small_size)?;
    let large_offset = p.nb_a_large.checked_mul(large_size)?;
    let offset = large_offset.checked_add(small_offset)?;
    reached(offset, small_size, l)
}
