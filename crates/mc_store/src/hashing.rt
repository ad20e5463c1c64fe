//! The hash by which a shard finds its items: a polynomial at a secret point, modulo the prime 2^61
//! - 1.
//!
//! Strangers choose the keys, and must not choose which keys meet in one place of the map. So each
//! seven bytes of a key are a coefficient of a polynomial, whose value at a secret point is the
//! key's hash: two keys of at most 250 bytes have one value at no more than 36 of the 2^60 points. The
//! value is then scaled and shifted by two more secret words, so that values that differ meet in
//! one place no oftener than twice as often as by chance. A client that doesn't know the words
//! can't do better, whichever keys it takes.
ghost use Rattle.std.specs.Prelude.{◌≡◌, ◌+◌, ◌*◌, ◌%◌, ◌^◌, ◌<◌, ◌≤◌, length};
ghost use Rattle.mc_store.specs.internal.Polynomial as polynomial;
ghost use Rattle.mc_store.specs.internal.Secret.{drawn};

use std::hash::{BuildHasher, Hasher, RandomState};

/// 2^61 - 1, a prime.
const PRIME: u64 = 2_305_843_009_213_693_951;

/// The secret words are below this, so that no sum passes 64 bits.
const WORDS: u64 = 1_152_921_504_606_846_976;

/// Coefficients are below this: seven bytes each.
const COEFFICIENTS: u64 = 72_057_594_037_927_936;

/// Three secret words, under which keys are hashed.
#[derive(Clone, Copy)]
pub struct PolynomialState {
    initial: PolynomialHasher,
}

/// A polynomial's value so far, and the secret words.
#[derive(Clone, Copy)]
pub struct PolynomialHasher {
    /// The value so far, not reduced.
    value: u64,
    point: u64,
    scale: u64,
    shift: u64,
}

impl PolynomialState {
    /// Draws the three words from the random state: SipHash under its secret keys, of three
    /// numbers. The polynomial begins with the coefficient 1, so that keys of different lengths
    /// have different polynomials.
    pub fn new(random: RandomState) -> PolynomialState
        ensures value { result.initial.value ≡ 1 }
        ensures point { result.initial.point ≡ drawn random 0 }
        ensures scale { result.initial.scale ≡ drawn random 1 }
        ensures shift { result.initial.shift ≡ drawn random 2 }
    {
        PolynomialState {
            initial: PolynomialHasher {
                value: 1,
                point: random.hash_one(0u64),
                scale: random.hash_one(1u64),
                shift: random.hash_one(2u64),
            },
        }
    }
}

impl BuildHasher for PolynomialState {
    type Hasher = PolynomialHasher;

    ghost build_hasher = { λ state. state.initial };

    #[inline(always)]
    fn build_hasher(&self) -> PolynomialHasher {
        self.initial
    }
}

/// A product that is made smaller, with the same rest modulo the prime: what passes 61 bits counts
/// once for each 2^61.
#[inline(always)]
fn folded(value: u64, word: u64) -> u64
    requires { word < 2 ^ 60 }
    ensures value { result ≡ polynomial.folded (value * word) }
    ensures rest { result % PRIME ≡ value * word % PRIME }
    ensures room { result < 2 ^ 63 + 2 ^ 61 }
{
    let product = value as u128 * word as u128;
    (product % (1 << 61)) as u64 + (product >> 61) as u64
}

/// Four bytes from the place on, the lowest first.
#[inline(always)]
fn read_u32(bytes: &[u8], at: usize) -> u32
    requires { at + 4 ≤ length bytes.now }
    ensures { result ≡ polynomial.read_u32 bytes.now at }
{
    u32::from_le_bytes([bytes[at], bytes[at + 1], bytes[at + 2], bytes[at + 3]])
}

/// Eight bytes from the place on, the lowest first.
#[inline(always)]
fn read_u64(bytes: &[u8], at: usize) -> u64
    requires { at + 8 ≤ length bytes.now }
    ensures { result ≡ polynomial.read_u64 bytes.now at }
{
    match bytes.split_at(at).1.first_chunk::<8>() {
        Some(chunk) => u64::from_le_bytes(*chunk),
        None => unreachable!(),
    }
}

/// The last coefficient: what is left of the bytes, and how many they are. Reads overlap, so that
/// there is no loop.
#[inline(always)]
fn last_coefficient(rest: &[u8]) -> u64
    requires { length rest.now ≤ 7 }
    ensures value { result ≡ polynomial.last rest.now }
    ensures room { result < 2 ^ 59 }
{
    let len = rest.len();
    let bytes = if len >= 4 {
        read_u32(rest, 0) as u64 + (read_u32(rest, len - 4) / 256) as u64 * 4_294_967_296
    } else if len > 0 {
        rest[0] as u64 + rest[len / 2] as u64 * 256 + rest[len - 1] as u64 * 65_536
    } else {
        0
    };
    bytes + len as u64 * COEFFICIENTS
}

impl Hasher for PolynomialHasher {
    ghost write = { polynomial.write };

    ghost finish = { polynomial.finish };

    #[inline(always)]
    fn finish(&self) -> u64 {
        (folded(self.value, self.scale % WORDS) + self.shift % PRIME) % PRIME
    }

    #[inline(always)]
    fn write(&mut self, bytes: &[u8]) {
        let point = self.point % WORDS;
        let mut value = folded(self.value, point);
        let mut at = 0;
        while bytes.len() - at > 7 {
            value = folded(value + read_u64(bytes, at) % COEFFICIENTS, point);
            at += 7;
        }
        self.value = value + last_coefficient(bytes.split_at(at).1);
    }
}
