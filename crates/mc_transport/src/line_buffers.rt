//! The line of a seat, which has buffers only while something is under way.
ghost use Rattle.std.specs.Prelude.{◌≡◌, ◌↔◌, None, Some, IfNone, IfOk, IfSome, IsSomeAnd, IsTrue};
ghost use Rattle.mc_sizes.specs.Sizes.{SuitLines, rules_of};
ghost use Rattle.mc_conn.specs.Conn.{IfConn, IsConn};
ghost use Rattle.mc_conn.specs.Flow.{Flow, IsAtRest, IsOver};
ghost use Rattle.mc_transport.specs.declared.buffered_conn.BufferedConn.{BufferedConn};
ghost use Rattle.mc_transport.specs.BufferedConn.{AreOneLine, IsNew, Rests, RestsAs};

use crate::buffer_pool::BufferPool;
use crate::buffered_conn::{BufferedConn, RestingLine};
use mc_sizes::Sizes;
use std::alloc::{AllocError, Global};
use std::marker::Model;
use std::snapshot::Snapshot;

/// A line at rest: its numbers, and the line as contracts see it.
#[derive(Drop)]
pub(crate) struct Rest {
    line: RestingLine,
    seen: Snapshot<BufferedConn>,
    ghost rests: { RestsAs line seen.value },
    ghost goes_on: { IfConn seen.value.conn (λ flow. ¬ IsOver flow) },
}

/// The line of a seat. Where many lines of the thread have buffers, those of a line at rest are in
/// the thread's pool, and only its numbers are here. Contracts see the line in both cases, and none
/// before the first.
pub struct LineBuffers {
    /// The line with its buffers.
    active: Option<Box<BufferedConn>>,
    /// The line at rest, if none is active.
    rest: Option<Rest>,
}

impl Model for LineBuffers {
    ghost use Rattle.std.specs.Prelude.{Option};
    ghost use Rattle.mc_transport.specs.declared.buffered_conn.BufferedConn.{BufferedConn};
    ghost use Rattle.mc_transport.specs.internal.Resting.{line_in};

    ghost Value = { Option BufferedConn };

    ghost view = { λ line. line_in line.active line.rest };
}

impl Drop for LineBuffers {
    /// Written by hand, so that its owners drop it by a single call (docs/DECISIONS.md, F20).
    fn drop(self) {
        let LineBuffers {
            active: _active,
            rest: _rest,
        } = self;
    }
}

impl LineBuffers {
    /// No line yet. It takes no memory.
    pub fn new() -> LineBuffers
        ensures { result ≡ None }
    {
        LineBuffers {
            active: None,
            rest: None,
        }
    }

    /// Whether no line has come yet.
    pub fn is_unused(&self) -> bool
        ensures unused { IsTrue result → self.now ≡ None }
    {
        self.active.is_none() && self.rest.is_none()
    }

    /// Takes out the line with its buffers, to put it back with `hold` or `put`. Those of a line at
    /// rest come from the pool, or are allocated. `None`: memory was refused, or there is no line.
    #[inline(always)]
    pub fn take(
        &mut self,
        alloc: Global,
        sizes: &Sizes,
        pool: &mut BufferPool,
    ) -> Option<Box<BufferedConn>>
        requires { SuitLines sizes.now }
        ensures some { IfSome result
            (λ line. IsSomeAnd self.old (λ was. AreOneLine was line.value)) }
        ensures none { IfNone result (self.new ≡ self.old) }
        // Memory is refused for a line at rest alone.
        ensures rests { IfNone result (IfSome self.old (λ line. Rests line)) }
    {
        if self.active.is_some() {
            return self.active.take();
        }
        let Some(rest) = &self.rest else {
            return None;
        };
        resumed(rest, alloc, *sizes, pool)
    }

    /// Puts the line in with its buffers.
    #[inline(always)]
    pub fn hold(&mut self, line: Box<BufferedConn>)
        ensures { self.new ≡ Some line.value }
    {
        self.active = Some(line);
    }

    /// Puts the line in. Where many lines of the thread have buffers, and it has come to rest, its
    /// own go back to the pool.
    #[inline(always)]
    pub fn put(&mut self, line: Box<BufferedConn>, pool: &mut BufferPool)
        ensures { self.new ≡ Some line.value }
    {
        if pool.is_short() {
            self.settle(line, pool);
        } else {
            self.hold(line);
        }
    }

    /// Puts the line in. Where it has come to rest, its buffers go back to the pool.
    #[inline(never)]
    fn settle(&mut self, line: Box<BufferedConn>, pool: &mut BufferPool)
        ensures { self.new ≡ Some line.value }
    {
        let Some(resting) = line.at_rest() else {
            return self.hold(line);
        };
        self.active = None;
        self.rest = Some(Rest {
            line: resting,
            seen: Snapshot::of(&*line),
        });
        pool.keep_conn(line);
    }

    /// Resets it for the next line if the last one has ended and nothing is under way, and returns
    /// whether it did. Its buffers go back to the pool then.
    pub fn renew(&mut self, pool: &mut BufferPool) -> bool
        ensures when { (line : BufferedConn) (flow : Flow) → self.old ≡ Some line →
            IsConn line.conn flow → IsTrue result ↔ (IsAtRest flow × IsOver flow) }
        ensures new { IsTrue result → (line : BufferedConn) (flow : Flow) →
            self.old ≡ Some line → IsConn line.conn flow →
            IsSomeAnd self.new (IsNew flow.shards flow.rules flow.window) }
    {
        let Some(mut line) = self.active.take() else {
            return self.rest.is_none();
        };
        let renewed = line.renew();
        self.settle(line, pool);
        renewed
    }
}

/// Buffers that have become the line at rest. `None`: memory was refused.
#[inline(never)]
fn resumed(
    rest: &Rest,
    alloc: Global,
    sizes: Sizes,
    pool: &mut BufferPool,
) -> Option<Box<BufferedConn>>
    requires { SuitLines sizes }
    ensures { IfSome result (λ line. RestsAs rest.now.line line.value) }
{
    let mut line = any_buffers(alloc, sizes, pool)?;
    if !line.resume(&rest.line) {
        return None;
    }
    pool.note_held();
    Some(line)
}

/// The buffers of some line that came to rest, or fresh ones. `None`: memory was refused.
fn any_buffers(alloc: Global, sizes: Sizes, pool: &mut BufferPool) -> Option<Box<BufferedConn>>
    requires { SuitLines sizes }
{
    if let Some(line) = pool.take_conn() {
        return Some(line);
    }
    fresh_buffers(alloc, sizes, pool).ok()
}

/// The buffers of a seat's first line, of which nothing was read. `AllocError`: memory was refused.
pub fn new_buffers(
    alloc: Global,
    sizes: Sizes,
    pool: &mut BufferPool,
) -> Result<Box<BufferedConn>, AllocError>
    requires { SuitLines sizes }
    ensures { IfOk result
        (λ line. IsNew sizes.shards (rules_of sizes) sizes.window line.value) }
{
    let line = fresh_buffers(alloc, sizes, pool)?;
    pool.note_held();
    Ok(line)
}

/// The buffers of a line of which nothing was read. `AllocError`: memory was refused.
#[inline(never)]
fn fresh_buffers(
    alloc: Global,
    sizes: Sizes,
    pool: &BufferPool,
) -> Result<Box<BufferedConn>, AllocError>
    requires { SuitLines sizes }
    ensures { IfOk result
        (λ line. IsNew sizes.shards (rules_of sizes) sizes.window line.value) }
{
    let line = BufferedConn::sharing(alloc, sizes, pool.memory()?)?;
    match Box::new(alloc, line) {
        Ok(line) => Ok(line),
        Err(_) => Err(AllocError),
    }
}
