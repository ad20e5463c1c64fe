//! What the map of a shard keeps of an item, packed.
ghost use Rattle.std.specs.Prelude.{◌≡◌, ◌<◌, ◌≤◌, ◌^◌, ◌/◌};
ghost use Rattle.mc_cells.specs.declared.TheConstants.{LONG_VALUE};
ghost use Rattle.mc_store.specs.internal.Stored.{bit, fields_of, place_in};

use crate::fields::Fields;
use mc_cells::Place;
use mc_item::PackedExpiry;

/// A last access is split into its lower 32 bits and a multiple of 2^32.
const LOW: u64 = 4_294_967_296;

/// A bound above the multiples of 2^32 in a last access, which is at most 2^40.
const HIGH: u64 = 512;

/// The number of combinations of three marks.
const MARKS: u64 = 8;

/// An item's fields and the place of its value, in 32 bytes.
#[derive(Clone, Copy)]
pub struct Stored {
    expiry: PackedExpiry,
    unique: u64,
    /// The place of the value, the upper part of the last access, and the marks.
    packed: u64,
    flags: u32,
    /// The lower part of the last access.
    access: u32,
}

const _: () = prove!(size_of::<Stored>() == 32);

/// A mark as a bit of this weight.
#[inline(always)]
fn bit(mark: bool, weight: u64) -> u64
    ensures { result ≡ bit mark weight }
{
    if mark { weight } else { 0 }
}

/// Fields, and the number of a place.
#[inline(always)]
#[tactic(auto, using(crate::proofs::Packing::packed_fields, crate::proofs::Packing::packed_place))]
fn pack(fields: &Fields, place: u64) -> Stored
    requires time { fields.now.last_access < 2 ^ 41 }
    requires place { place < 2 ^ 52 }
    ensures fields { fields_of result ≡ fields.now }
    ensures place { result.packed / 4096 ≡ place }
{
    let marks = bit(fields.fetched, 1) + bit(fields.stale, 2) + bit(fields.sent, 4);
    let high = fields.last_access / LOW;
    Stored {
        expiry: fields.expiry,
        unique: fields.unique,
        packed: (place * HIGH + high) * MARKS + marks,
        flags: fields.flags,
        access: (fields.last_access % LOW) as u32,
    }
}

impl Stored {
    /// An item whose value is at the place.
    #[inline(always)]
    pub fn new(fields: &Fields, place: Place) -> Stored
        requires time { fields.now.last_access < 2 ^ 41 }
        requires fits { place.len < 2 ^ 24 }
        requires few { LONG_VALUE ≤ place.len → place.first < 2 ^ 25 }
        ensures fields { fields_of result ≡ fields.now }
        ensures place { place_in result ≡ place }
    {
        pack(fields, place.number())
    }

    /// The place of the value.
    #[inline(always)]
    pub fn place(&self) -> Place
        ensures { result ≡ place_in self.now }
    {
        Place::from_number(self.packed / (HIGH * MARKS))
    }

    /// The fields.
    #[inline(always)]
    pub fn fields(&self) -> Fields
        ensures fields { result ≡ fields_of self.now }
        ensures time { result.last_access < 2 ^ 41 }
    {
        let Stored {
            expiry,
            unique,
            packed,
            flags,
            access,
        } = *self;
        Fields {
            flags,
            fetched: packed % 2 == 1,
            stale: packed / 2 % 2 == 1,
            sent: packed / 4 % 2 == 1,
            expiry,
            unique,
            last_access: packed / MARKS % HIGH * LOW + u64::from(access),
        }
    }

    /// Sets the fields. The place stays the same.
    #[inline(always)]
    pub fn set_fields(&mut self, fields: &Fields)
        requires { fields.now.last_access < 2 ^ 41 }
        ensures fields { fields_of self.new ≡ fields.now }
        ensures place { place_in self.new ≡ place_in self.old }
    {
        *self = pack(fields, self.packed / (HIGH * MARKS));
    }
}
