//! The value of an item.
ghost use Rattle.std.specs.Prelude.{◌≡◌, ◌+◌, ◌≤◌, ◌==◌, [], length, IfOk};
ghost use Rattle.std.specs.List.{list_all, position};
ghost use Rattle.mc_item.specs.Value.{number_in, number_text, joined};
ghost use Rattle.mc_wire.specs.Sink.{Writes};
ghost use Rattle.mc_wire.specs.Words.{is_space};

use crate::memory::NoMemory;
use bytes::Bytes;
use itoa::Buffer;
use mc_wire::{DIGIT_LIMIT, MAX_VALUE_LIMIT, Sink, SinkError, number_u64};
use std::alloc::{AllocError, Global};
use std::marker::Model;

/// The bytes that a client stored: at most `MAX_VALUE_LIMIT`. Values that are cut from the same
/// block share it.
pub struct Value {
    held: Bytes,
}

impl Drop for Value {
    /// By hand, so that dropping one is one call for its owner (docs/DECISIONS.md).
    #[inline(always)]
    fn drop(self) {
        let Value { held: _held } = self;
    }
}

impl Model for Value {
    ghost use Rattle.std.specs.Prelude.{ℕ, List, ◌≤◌, length};
    ghost use Rattle.mc_wire.specs.declared.TheConstants.{MAX_VALUE_LIMIT};

    ghost Value = { List ℕ };

    ghost view = { λ value. value.held };

    ghost invariant = { λ value. length value.held ≤ MAX_VALUE_LIMIT };
}

impl Value {
    /// The value with these bytes, without a copy. It takes memory for the count of their owners.
    pub fn new(bytes: Vec<u8>) -> Result<Value, NoMemory>
        requires { length bytes.items ≤ MAX_VALUE_LIMIT }
        ensures { IfOk result (λ value. value ≡ bytes.items) }
    {
        match Bytes::from_vec(bytes) {
            Ok(held) => Ok(Value { held }),
            Err(_refused) => Err(NoMemory),
        }
    }

    /// The value with these bytes, which may be shared. It takes no memory.
    #[inline(always)]
    pub fn of_bytes(held: Bytes) -> Value
        requires { length held ≤ MAX_VALUE_LIMIT }
        ensures { result ≡ held }
    {
        Value { held }
    }

    /// The bytes of the value, which are no longer its own.
    #[inline(always)]
    pub fn into_bytes(self) -> Bytes
        ensures value { result ≡ self }
        ensures within { length self ≤ MAX_VALUE_LIMIT }
    {
        let Value { held } = self;
        held
    }

    /// The value with a copy of these bytes.
    pub fn of_slice(alloc: Global, bytes: &[u8]) -> Result<Value, NoMemory>
        requires { length bytes.now ≤ MAX_VALUE_LIMIT }
        ensures { IfOk result (λ value. value ≡ bytes.now) }
    {
        let held = Bytes::copy_from_slice(alloc, bytes)?;
        Ok(Value { held })
    }

    /// The value with no bytes. It takes no memory.
    pub fn empty() -> Value
        ensures { result ≡ [] }
    {
        Value { held: Bytes::new() }
    }

    /// The text of a number: its decimal digits, without padding.
    pub fn of_number(alloc: Global, number: u64) -> Result<Value, NoMemory>
        ensures text { IfOk result (λ value. value ≡ number_text number) }
        ensures short { IfOk result (λ value. length value ≤ DIGIT_LIMIT) }
    {
        let mut buffer = Buffer::new();
        Value::of_slice(alloc, buffer.format(number).as_bytes())
    }

    /// The bytes of the value.
    pub fn bytes(&self) -> &[u8]
        ensures value { result.now ≡ self.now }
        ensures within { length self.now ≤ MAX_VALUE_LIMIT }
    {
        self.held.as_slice()
    }

    /// Writes the value. A sink that keeps what it is given may share it.
    pub fn put_to<O: Sink>(&self, out: &mut O) -> Result<(), SinkError>
        ensures { Writes self.now result (O.sight out.old) (O.sight out.new) }
    {
        out.put_shared(&self.held)
    }

    /// How many bytes the value has.
    pub fn len(&self) -> usize
        ensures value { result ≡ length self.now }
        ensures within { result ≤ MAX_VALUE_LIMIT }
    {
        self.bytes().len()
    }

    /// Whether the value has no bytes.
    pub fn is_empty(&self) -> bool
        ensures { result ≡ (length self.now == 0) }
    {
        self.bytes().is_empty()
    }

    /// The number that the value holds (protocol.txt, "Increment/Decrement"): 1 to 20 digits, and
    /// after them spaces alone.
    #[tactic(auto, unfolding(crate::specs::Value::number_in))]
    pub fn number(&self) -> Option<u64>
        ensures { result ≡ number_in self.now }
    {
        let bytes = self.bytes();
        let Some(space) = first_space(bytes) else {
            return number_u64(bytes).ok();
        };
        if !is_spaces(&bytes[space + 1..]) {
            return None;
        }
        number_u64(&bytes[..space]).ok()
    }

    /// The value with the block after it, as by `append`, or before it, as by `prepend`. Both stay
    /// as they are.
    pub fn joined(&self, alloc: Global, block: &Value, after: bool) -> Result<Value, NoMemory>
        requires { length self.now + length block.now ≤ MAX_VALUE_LIMIT }
        ensures { IfOk result (λ value. value ≡ joined self.now block.now after) }
    {
        let (front, back) = if after { (self, block) } else { (block, self) };
        let mut bytes = Vec::with_capacity(alloc, front.len() + back.len())?;
        bytes.extend_from_slice(front.bytes())?;
        bytes.extend_from_slice(back.bytes())?;
        Value::new(bytes)
    }
}

/// The index of the first space.
fn first_space(text: &[u8]) -> Option<usize>
    ensures { result ≡ position is_space text.now }
{
    text.iter().position(|byte| *byte == b' ')
}

/// Whether all bytes are spaces.
fn is_spaces(text: &[u8]) -> bool
    ensures { result ≡ list_all is_space text.now }
{
    text.iter().all(|byte| *byte == b' ')
}

impl Clone for Value {
    ghost is_clone = { λ value copy. copy ≡ value };

    fn clone(&self) -> Result<Value, AllocError> {
        let held = self.held.clone()?;
        Ok(Value { held })
    }
}
