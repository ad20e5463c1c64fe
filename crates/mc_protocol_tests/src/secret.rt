//! The secret of a shard's key hash comes from the random source. No contract can state this, since
//! nothing is known about random bytes.
use crate::asserting::holds;
use mc_store::Shard;
use std::alloc::Global;
use std::io;
use std::random::RandomSource;
use std::sync::atomic::{AtomicU64, Ordering};
use std::test::Fail;

/// A source that always fails.
#[derive(Clone, Copy)]
struct Broken;

impl RandomSource for Broken {
    fn fill_bytes(&self, _buf: &mut [u8]) -> io::Result<()> {
        Err(io::Error::from(io::ErrorKind::Other))
    }
}

/// A source that counts the bytes that it returned.
#[derive(Drop)]
struct Counted {
    given: AtomicU64,
}

impl RandomSource for Counted {
    fn fill_bytes(&self, buf: &mut [u8]) -> io::Result<()> {
        for byte in buf.iter_mut() {
            let before = self.given.fetch_add(1, Ordering::SeqCst);
            *byte = (before & 0xff) as u8;
        }
        Ok(())
    }
}

/// Whether a shard can be made with this source.
fn is_made(source: &impl RandomSource, alloc: Global) -> bool {
    Shard::empty(source, alloc, 0, 2, 1_024, 1_024).is_ok()
}

#[test]
fn without_random_bytes_there_is_no_shard(rt: HostRuntime) -> Result<(), Fail> {
    holds(&rt, !is_made(&Broken, rt.alloc()));
    Ok(())
}

/// At least 8 secret bytes are drawn for each shard.
#[test]
fn each_shard_draws_a_secret(rt: HostRuntime) -> Result<(), Fail> {
    let source = Counted {
        given: AtomicU64::new(0),
    };
    for _ in 0..3 {
        let before = source.given.load(Ordering::SeqCst);
        holds(&rt, is_made(&source, rt.alloc()));
        let after = source.given.load(Ordering::SeqCst);
        holds(&rt, after.wrapping_sub(before) >= 8);
    }
    Ok(())
}
