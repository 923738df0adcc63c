ghost use Rattle.std.specs.Prelude.{◌≡◌, ◌≤◌, ◌++◌, [], length, drop, IfOk, OnOk, OnErr};

use rb_base::NoMemory;
use std::alloc::Global;
use std::marker::Model;

/// Bytes that were fed and are not decoded yet. Contracts see them as a list.
#[derive(Drop)]
pub(crate) struct Unread {
    buffer: Vec<u8>,
    start: usize,
    ghost within: { start ≤ length buffer.items },
}

impl Model for Unread {
    ghost use Rattle.std.specs.Prelude.{ℕ, List, drop};
    ghost use Rattle.std.specs.Coded.{coded_list, coded_ℕ};

    ghost Value = { List ℕ };

    ghost coded = { coded_list coded_ℕ };

    ghost view = { λ unread. drop unread.start unread.buffer.items };
}

impl Unread {
    pub(crate) fn new(alloc: Global) -> Unread
        ensures { result ≡ [] }
    {
        Unread {
            buffer: Vec::new(alloc),
            start: 0,
        }
    }

    pub(crate) fn as_slice(&self) -> &[u8]
        ensures { result.now ≡ self.now }
    {
        &self.buffer[self.start..]
    }

    /// Skips `count` bytes. Their memory is released when more bytes are fed.
    pub(crate) fn skip(&mut self, count: usize)
        requires { count ≤ length self.old }
        ensures { self.new ≡ drop count self.old }
    {
        self.start += count;
    }

    /// Appends a piece, and first releases the bytes that were skipped. If all steps are taken
    /// between two pieces, this copies only the bytes of an incomplete event again, apart from the
    /// growth of the buffer.
    pub(crate) fn push(&mut self, alloc: Global, piece: &[u8]) -> Result<(), NoMemory>
        ensures ok { OnOk result (self.new ≡ self.old ++ piece.now) }
        ensures err { OnErr result (self.new ≡ self.old) }
    {
        if self.start > 0 {
            *self = self.without_passed(alloc, piece.len())?;
        }
        self.buffer.extend_from_slice(piece)?;
        Ok(())
    }

    /// Returns the same bytes in a buffer with room for `more` bytes.
    fn without_passed(&self, alloc: Global, more: usize) -> Result<Unread, NoMemory>
        ensures { IfOk result (λ unread. unread ≡ self.now) }
    {
        let unread = self.as_slice();
        let mut buffer = Vec::with_capacity(alloc, unread.len().saturating_add(more))?;
        buffer.extend_from_slice(unread)?;
        Ok(Unread { buffer, start: 0 })
    }
}
