//! The memory in which text waits for a device.

ghost use Rattle.std.specs.Prelude.{◌≡◌, ◌+◌, ◌≤◌, ◌++◌, [], length, drop, IfOk};

use std::alloc::{AllocError, Global};
use std::marker::Model;

/// How many bytes are gathered before they are delivered.
pub const CAPACITY: usize = 8192;

/// Bytes that no device has taken yet.
///
/// Their memory is reserved once and never grows, so that to gather a short text is to copy it.
#[derive(Debug, Drop)]
pub(super) struct PendingBytes {
    memory: Vec<u8>,
    len: usize,
}

impl Model for PendingBytes {
    ghost use Rattle.std.specs.Prelude.{◌≡◌, ℕ, List, ◌≤◌, length, take};

    ghost Value = { List ℕ };

    ghost view = { λ b. take b.len b.memory.items };

    ghost invariant = { λ b. (b.len ≤ 8192) × (length b.memory.items ≡ 8192) };
}

impl PendingBytes {
    /// Reserves the memory.
    pub(super) fn new(alloc: Global) -> Result<PendingBytes, AllocError>
        ensures { IfOk result (λ b. b ≡ []) }
    {
        let mut memory = Vec::new(alloc);
        memory.resize(CAPACITY, 0)?;
        Ok(PendingBytes { memory, len: 0 })
    }

    /// The bytes.
    pub(super) fn as_slice(&self) -> &[u8]
        ensures { result.now ≡ self.now }
    {
        &self.memory.as_slice()[..self.len]
    }

    /// The bytes, in the memory that held them.
    pub(super) fn into_vec(self) -> Vec<u8>
        ensures { result.items ≡ self }
    {
        let PendingBytes { mut memory, len } = self;
        memory.truncate(len);
        memory
    }

    /// How many more bytes fit.
    #[inline]
    pub(super) fn room(&self) -> usize
        ensures { length self.now + result ≡ 8192 }
    {
        CAPACITY - self.len
    }

    /// Appends bytes that fit into the rest of the buffer.
    #[inline]
    pub(super) fn push(&mut self, bytes: &[u8])
        requires { length self.old + length bytes.now ≤ 8192 }
        ensures { self.new ≡ self.old ++ bytes.now }
    {
        let end = self.len + bytes.len();
        self.memory.as_mut_slice()[self.len..end].copy_from_slice(bytes);
        self.len = end;
    }

    /// Forgets the first bytes.
    pub(super) fn remove_front(&mut self, n: usize)
        requires { n ≤ length self.old }
        ensures { self.new ≡ drop n self.old }
    {
        let len = self.len;
        self.memory.as_mut_slice().copy_within(n..len, 0);
        self.len = len - n;
    }
}
