//! Memory for the bytes of datagrams.

ghost use Rattle.std.specs.Prelude.{◌≡◌, IfOk};

use bytes::{Bytes, BytesMut};
use std::alloc::Global;
use vp_base::NoMemory;

/// The length of a block in bytes, which is that of four of the longest datagrams.
const BLOCK: usize = 65_536;

/// Keeps the bytes of datagrams. Many of them lie in one block of memory, which stays until the last of them is gone.
#[derive(Drop)]
pub struct ByteStore {
    /// The bytes of the datagram at hand.
    pub read: Vec<u8>,
    /// What is free of the block at hand.
    free: BytesMut,
}

impl ByteStore {
    /// Makes it without a block. Takes no memory.
    pub fn new(alloc: Global) -> ByteStore {
        ByteStore {
            read: Vec::new(alloc),
            free: BytesMut::new(alloc),
        }
    }

    /// The allocator of its blocks.
    pub fn allocator(&self) -> Global {
        *self.free.allocator()
    }

    /// Copies the bytes of the datagram at hand into the block at hand, or into a new one where they don't fit there.
    pub fn keep(&mut self) -> Result<Bytes, NoMemory>
        ensures { IfOk result (λ kept. kept ≡ self.old.read.items) }
    {
        let count = self.read.len();
        self.free.clear();
        if self.free.capacity() < count {
            self.free = BytesMut::with_capacity(self.allocator(), BLOCK.max(count))?;
        }
        self.free.extend_from_slice(&self.read)?;
        let kept = self.free.freeze_to(count)?;
        Ok(kept)
    }
}
