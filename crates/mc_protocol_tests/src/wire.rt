//! Tests of what no contract states: values from outside, success with ample memory, and sinks
//! that take one byte per write and fail within a text.
ghost use Rattle.std.specs.Prelude.{◌<◌};
ghost use Rattle.mc_wire.specs.Sink.{Listed, sight_out};

use crate::asserting::{equal, holds};
use mc_wire::{
    BASE64_LIMIT, DECODED_KEY_LIMIT, KEY_LIMIT, Key, Sink, SinkError, WireError, base64_is_text,
    key_fault, number_i64, number_u64, put_parts, words, write_all,
};
use std::alloc::Global;
use std::process::Abort;
use std::test::Fail;

/// Takes one byte per write, and fails after this number of writes.
#[derive(Drop)]
struct Dripping {
    store: Vec<u8>,
    writes_left: u64,
    failed: bool,
}

impl Sink for Dripping {
    ghost sight = { λ out. sight_out (Listed out.store.items) out.failed };

    fn write(&mut self, bytes: &[u8]) -> Result<usize, SinkError> {
        if bytes.is_empty() && !self.failed {
            return Ok(0);
        }
        if self.failed || self.writes_left == 0 {
            self.failed = true;
            return Err(SinkError);
        }
        self.writes_left -= 1;
        if self.store.extend_from_slice(bytes.split_at(1).0).is_err() {
            self.failed = true;
            return Err(SinkError);
        }
        Ok(1)
    }
}

#[test]
fn words_are_the_runs_between_spaces(rt: HostRuntime) {
    let mut walk = words(b"  set a\t1  0 \r ");
    equal(&rt, walk.next(), Some(b"set".as_slice()));
    equal(&rt, walk.next(), Some(b"a\t1".as_slice()));
    equal(&rt, walk.text(), b" 0 \r ".as_slice());
    equal(&rt, walk.next(), Some(b"0".as_slice()));
    equal(&rt, walk.next(), Some(b"\r".as_slice()));
    equal(&rt, walk.next(), None);
    equal(&rt, walk.next(), None);
}

static UNSIGNED: [(&[u8], Result<u64, WireError>); 6] = [
    (b"00000000000000000042", Ok(42)),
    (b"000000000000000000042", Err(WireError::NotNumber)),
    (b"18446744073709551615", Ok(u64::MAX)),
    (b"18446744073709551616", Err(WireError::NotNumber)),
    (b"-1", Err(WireError::NotNumber)),
    (b"", Err(WireError::NotNumber)),
];

static SIGNED: [(&[u8], Result<i64, WireError>); 7] = [
    (b"9223372036854775807", Ok(i64::MAX)),
    (b"9223372036854775808", Err(WireError::NotNumber)),
    (b"-9223372036854775808", Ok(i64::MIN)),
    (b"-9223372036854775809", Err(WireError::NotNumber)),
    (b"-00000000000000000001", Ok(-1)),
    (b"--1", Err(WireError::NotNumber)),
    (b"-", Err(WireError::NotNumber)),
];

#[test]
fn numbers_end_where_64_bits_end(rt: HostRuntime) {
    for (word, want) in &UNSIGNED {
        equal(&rt, (*word, number_u64(*word)), (*word, *want));
    }
    for (word, want) in &SIGNED {
        equal(&rt, (*word, number_i64(*word)), (*word, *want));
    }
}

/// The number of the shard of this word's key, of this number of shards.
fn place_of(alloc: Global, word: &[u8], places: usize) -> Result<usize, WireError>
    requires { 0 < places }
{
    Ok(Key::from_word(alloc, word)?.place(places))
}

/// Whether the keys of both words are equal.
fn are_alike(alloc: Global, one: &[u8], other: &[u8]) -> Result<bool, WireError> {
    let one = Key::from_word(alloc, one)?;
    Ok(Key::from_word(alloc, other)? == one)
}

/// Whether this word's key and its clone have the word's bytes, and are equal.
fn keeps_its_bytes(alloc: Global, word: &[u8]) -> Result<bool, WireError> {
    let key = Key::from_word(alloc, word)?;
    let clone = key.clone()?;
    Ok(key.bytes() == word && clone.bytes() == word && clone == key)
}

static PLACES: [(&[u8], usize); 5] = [(b"a", 0), (b"b", 1), (b"c", 0), (b"d", 1), (b"e", 0)];

/// The numbers follow from the published hashes E40C292C, E70C2DE5, E60C2C52, E10C2473 and
/// E00C22E0.
#[test]
fn keys_have_their_places(rt: HostRuntime) -> Result<(), Fail> {
    for (word, shard) in &PLACES {
        let place = place_of(rt.alloc(), *word, 2)?;
        equal(&rt, (*word, place), (*word, *shard));
    }
    let place = place_of(rt.alloc(), b"foobar", 1 << 32)?;
    equal(&rt, place, 0xBF9C_F968);
    holds(&rt, keeps_its_bytes(rt.alloc(), b"foobar")?);
    holds(&rt, !are_alike(rt.alloc(), b"fooba", b"foobar")?);
    Ok(())
}

static WORDS: [&[u8]; 5] = [
    b"k",
    b"0123456789012345678901234567890123456",
    b"01234567890123456789012345678901234567",
    b"012345678901234567890123456789012345678",
    b"0123456789012345678901234567890123456789",
];

/// Keys of at most 38 bytes are stored inline, longer ones on the heap; they behave alike.
#[test]
fn keys_are_alike_wherever_they_lie(rt: HostRuntime) -> Result<(), Fail> {
    for word in &WORDS {
        let kept = keeps_its_bytes(rt.alloc(), *word)?;
        equal(&rt, (*word, kept), (*word, true));
        for other in &WORDS {
            let alike = are_alike(rt.alloc(), *word, *other)?;
            equal(&rt, (*word, alike), (*word, *word == *other));
        }
    }
    Ok(())
}

static VECTORS: [(&[u8], &[u8]); 7] = [
    (b"Zg==", b"f"),
    (b"Zm8=", b"fo"),
    (b"Zm9v", b"foo"),
    (b"Zm9vYg==", b"foob"),
    (b"Zm9vYmE=", b"fooba"),
    (b"Zm9vYmFy", b"foobar"),
    (b"AAEg/w==", b"\x00\x01\x20\xff"),
];

/// Asserts that the key of a word in base64 has these bytes, and is encoded to the word again.
fn is_base64(rt: &impl Abort, alloc: Global, word: &[u8], bytes: &[u8]) -> Result<(), Fail> {
    let key = Key::from_base64(alloc, word)?;
    equal(rt, (word, key.bytes()), (word, bytes));
    let mut room = [0; BASE64_LIMIT];
    equal(rt, (bytes, key.to_base64(&mut room)), (bytes, word));
    Ok(())
}

/// The texts are from RFC 4648, section 10.
#[test]
fn base64_keys_are_shown_as_they_were_read(rt: HostRuntime) -> Result<(), Fail> {
    for (word, bytes) in &VECTORS {
        is_base64(&rt, rt.alloc(), *word, *bytes)?;
    }
    Ok(())
}

#[test]
fn the_longest_keys_in_base64(rt: HostRuntime) -> Result<(), Fail> {
    let longest = Key::from_base64(rt.alloc(), &[b'A'; 248])?;
    base64_is_text();
    equal(&rt, longest.bytes(), [0; DECODED_KEY_LIMIT].as_slice());
    let long = Key::from_word(rt.alloc(), &[b'k'; KEY_LIMIT])?;
    let mut room = [0; BASE64_LIMIT];
    equal(&rt, long.to_base64(&mut room).len(), BASE64_LIMIT);
    Ok(())
}

static FAULTS: [(&[u8], Option<WireError>, WireError); 7] = [
    (b"", Some(WireError::NoKey), WireError::NoKey),
    (b"a b", Some(WireError::KeyByte), WireError::NotBase64),
    (b"\x7f", Some(WireError::KeyByte), WireError::NotBase64),
    (b"YR==", None, WireError::NotBase64),
    (b"YQ=", None, WireError::NotBase64),
    (b"-_==", None, WireError::NotBase64),
    (
        &[b'A'; 251],
        Some(WireError::KeyTooLong),
        WireError::KeyTooLong,
    ),
];

/// The error of a key, if there is one.
fn fault_of(key: Result<Key, WireError>) -> Option<WireError> {
    key.err()
}

/// Also if an allocation is refused: an invalid word needs none.
#[test]
fn faults_of_words_take_no_memory(rt: HostRuntime) {
    for (word, plain, base64) in &FAULTS {
        equal(&rt, (*word, key_fault(*word)), (*word, *plain));
        if plain.is_some() {
            let fault = fault_of(Key::from_word(rt.alloc(), *word));
            equal(&rt, (*word, fault), (*word, *plain));
        }
        let fault = fault_of(Key::from_base64(rt.alloc(), *word));
        equal(&rt, (*word, fault), (*word, Some(*base64)));
    }
}

/// Whether a key was parsed and can be cloned.
fn is_cloned(key: Result<Key, WireError>) -> bool {
    match &key {
        Ok(key) => key.clone().is_ok(),
        Err(_) => false,
    }
}

/// Also if an allocation is refused: a key of at most 38 bytes needs none.
#[test]
fn short_keys_take_no_memory(rt: HostRuntime) {
    holds(&rt, is_cloned(Key::from_word(rt.alloc(), &[b'k'; 38])));
    holds(
        &rt,
        fault_of(Key::from_base64(rt.alloc(), b"YQ==")).is_none(),
    );
}

static LONG_KEY: [u8; 39] = [b'a'; 39];

/// Asserts that it is the long key, or that its memory was refused.
fn is_long_key(rt: &impl Abort, key: Result<Key, WireError>) {
    match &key {
        Ok(key) => equal(rt, key.bytes(), LONG_KEY.as_slice()),
        Err(fault) => equal(rt, *fault, WireError::Memory),
    }
}

/// If an allocation is refused, the error is `Memory`; otherwise there is none.
#[test]
fn memory_is_the_only_other_fault(rt: HostRuntime) {
    is_long_key(&rt, Key::from_word(rt.alloc(), &LONG_KEY));
    let word = b"YWFhYWFhYWFhYWFhYWFhYWFhYWFhYWFhYWFhYWFhYWFhYWFhYWFh";
    is_long_key(&rt, Key::from_base64(rt.alloc(), word));
}

#[test]
fn a_failing_sink_has_taken_a_front(rt: HostRuntime) -> Result<(), Fail> {
    let whole = b"VALUE a 0\r\n";
    for writes in 0..=11 {
        let mut at_once = Dripping {
            store: Vec::new(rt.alloc()),
            writes_left: writes,
            failed: false,
        };
        let mut in_parts = Dripping {
            store: Vec::new(rt.alloc()),
            writes_left: writes,
            failed: false,
        };
        let parts = [b"VALUE ".as_slice(), b"a", b"", b" 0\r\n"];
        let want = if writes == 11 { Ok(()) } else { Err(SinkError) };
        equal(
            &rt,
            (writes, write_all(&mut at_once, whole)),
            (writes, want),
        );
        equal(
            &rt,
            (writes, put_parts(&mut in_parts, &parts)),
            (writes, want),
        );
        equal(&rt, at_once.store.as_slice(), &whole[..writes as usize]);
        equal(&rt, in_parts.store.as_slice(), &whole[..writes as usize]);
    }
    Ok(())
}
