//! Pages of memory that values are cut from.
ghost use Rattle.std.specs.Prelude.{◌≡◌, ◌≤◌, [], length, IfOk, OnOk};

use bytes::{Bytes, BytesMut};
use std::alloc::{AllocError, Global};
use std::mem;

/// Two pages, used by turns, that values are cut from one after another.
///
/// A page that is used up is used again once no value shares it. While values still share it, the
/// other one is used. Another page is allocated only if values share both.
pub struct ValuePages {
    alloc: Global,
    /// Size of a page in bytes.
    pub(crate) size: usize,
    pub(crate) current: BytesMut,
    /// The page that was used before.
    previous: BytesMut,
}

impl Drop for ValuePages {
    /// Written by hand, so that its owners drop it by a single call (docs/DECISIONS.md, F20).
    fn drop(self) {
        let ValuePages {
            alloc: _,
            size: _,
            current: _current,
            previous: _previous,
        } = self;
    }
}

impl ValuePages {
    /// Pages of `size` bytes. They are allocated when values come.
    pub fn new(alloc: Global, size: usize) -> ValuePages
        ensures { result.size ≡ size }
    {
        ValuePages {
            alloc,
            size,
            current: BytesMut::new(alloc),
            previous: BytesMut::new(alloc),
        }
    }

    /// A copy of the bytes, cut from a page. Fails if memory is refused.
    #[inline(always)]
    pub fn copy(&mut self, bytes: &[u8]) -> Result<Bytes, AllocError>
        requires { length bytes.now ≤ self.old.size }
        ensures value { IfOk result (λ value. value ≡ bytes.now) }
        ensures size { self.new.size ≡ self.old.size }
    {
        self.make_room(bytes.len())?;
        self.current.extend_reserved(bytes);
        self.current.freeze_to(bytes.len())
    }

    /// Makes the current page empty, with room for `len` bytes. Fails if memory is refused.
    #[inline(always)]
    pub(crate) fn make_room(&mut self, len: usize) -> Result<(), AllocError>
        requires { len ≤ self.old.size }
        ensures empty { OnOk result (self.new.current.items ≡ []) }
        ensures room { OnOk result (len ≤ self.new.current.spare) }
        ensures size { self.new.size ≡ self.old.size }
    {
        self.current.clear();
        if self.current.capacity() < len {
            return self.turn(len);
        }
        Ok(())
    }

    /// Makes room in an empty page that has too little. Where values share it, the pages are
    /// exchanged.
    #[cold]
    #[inline(never)]
    fn turn(&mut self, len: usize) -> Result<(), AllocError>
        requires empty { self.old.current.items ≡ [] }
        requires len { len ≤ self.old.size }
        ensures empty { OnOk result (self.new.current.items ≡ []) }
        ensures room { OnOk result (len ≤ self.new.current.spare) }
        ensures size { self.new.size ≡ self.old.size }
    {
        if self.current.try_reclaim(len) {
            return Ok(());
        }
        mem::swap(&mut self.current, &mut self.previous);
        self.current.clear();
        if !self.current.try_reclaim(len) {
            self.current = BytesMut::with_capacity(self.alloc, self.size)?;
        }
        Ok(())
    }
}
