//! Making the channels between seats and shards.
ghost use Rattle.std.specs.Prelude.{◌≡◌, ◌≢◌, ◌<◌, ◌↔◌, ◌∷◌, ℕ, [], IfOk, IsErrOf, IsTrue, Err};
ghost use Rattle.rtrb.specs.Ring.{IsPair, known_free, known_items, producer_capacity, received, sent};
ghost use Rattle.mc_sizes.specs.Sizes.{SuitChannels};
ghost use Rattle.mc_ring.specs.Made.{AreChannels, AreRouted, IsUnused};
ghost use Rattle.mc_ring.specs.internal.Joined.{Joins};

use crate::reply::Reply;
use crate::request::Request;
use crate::seat::{SeatChannel, SeatEnds};
use crate::shard::{ShardChannel, ShardEnds};
use crate::stamped::{Numbers, Stamped};
use crate::token::{Replies, Requests, Source, Token};
use mc_item::{Answer, Kind};
use mc_reply::Ticket;
use mc_sizes::{MAX_RING, MAX_SEATS, MAX_SHARDS, MIN, Sizes};
use rtrb::{Consumer, Producer, Protocol, RingBuffer};
use std::alloc::{AllocError, Global};
use thiserror::Error;

/// Why there are no channels.
#[derive(Clone, Copy, Debug, Error, PartialEq, Eq)]
pub enum RingError {
    /// A number is out of its range.
    #[error("the number of seats, of shards or of places in a ring is out of its range")]
    Size,
    /// There is no memory for the rings.
    #[error("out of memory for the rings between seats and shards")]
    Memory,
}

impl From<AllocError> for RingError {
    ghost use Rattle.mc_ring.specs.declared.making.RingError.TheVariants.{Memory};

    ghost from_gives = { λ _ refusal. refusal ≡ Memory };

    fn from(_error: AllocError) -> RingError {
        RingError::Memory
    }
}

/// The ends of a channel between each seat and each shard, with rings of `sizes.ring` places.
/// `Size` where the number of seats, of shards or of places is out of its limits, which is tested
/// first.
pub fn channels(alloc: Global, sizes: Sizes) -> Result<(Vec<SeatEnds>, Vec<ShardEnds>), RingError>
    ensures made { IfOk result
        (λ ends. AreChannels sizes.seats sizes.shards sizes.ring ends.0.items ends.1.items) }
    ensures size { IsErrOf result RingError.Size → ¬ (SuitChannels sizes) }
    ensures tested { result ≢ Err RingError.Size → SuitChannels sizes }
{
    channels_with(alloc, sizes, &mut ())
}

/// Makes channels, as `channels` does, on which each request and each reply has a token, all of the
/// history of the source.
pub fn channels_with<T: Token + Drop, S: Source<T>>(
    alloc: Global,
    sizes: Sizes,
    source: &mut S,
) -> Result<(Vec<SeatEnds<T>>, Vec<ShardEnds<T>>), RingError>
    ensures made { IfOk result
        (λ ends. AreChannels sizes.seats sizes.shards sizes.ring ends.0.items ends.1.items) }
    ensures routed { IfOk result (λ ends. AreRouted (S.name source.old) ends.0.items) }
    ensures size { IsErrOf result RingError.Size → ¬ (SuitChannels sizes) }
    ensures tested { result ≢ Err RingError.Size → SuitChannels sizes }
{
    if !suit_channels(sizes) {
        return Err(RingError::Size);
    }
    Ok(all_channels(alloc, sizes.seats, sizes.shards, sizes.ring, source)?)
}

/// Whether the numbers of seats, of shards and of places in a ring are within their limits.
fn suit_channels(sizes: Sizes) -> bool
    ensures { IsTrue result ↔ SuitChannels sizes }
{
    (MIN..=MAX_SEATS).contains(&sizes.seats)
        && (MIN..=MAX_SHARDS).contains(&sizes.shards)
        && (MIN..=MAX_RING).contains(&sizes.ring)
}

/// The ends of all channels, of whatever numbers.
fn all_channels<T: Token + Drop, S: Source<T>>(
    alloc: Global,
    seats: usize,
    shards: usize,
    capacity: usize,
    source: &mut S,
) -> Result<(Vec<SeatEnds<T>>, Vec<ShardEnds<T>>), AllocError>
    requires { 0 < capacity }
    ensures made { IfOk result
        (λ ends. AreChannels seats shards capacity ends.0.items ends.1.items) }
    ensures routed { IfOk result (λ ends. AreRouted (S.name source.old) ends.0.items) }
{
    let mut far = shards_without_channels(alloc, shards)?;
    let mut near = Vec::with_capacity(alloc, seats)?;
    for number in 0..seats {
        let channels = row(alloc, capacity, number, &mut far, source)?;
        near.push(SeatEnds::new(number, channels))?;
    }
    Ok((near, far))
}

/// The ends of the shards, `shards` of them, with no channel yet.
fn shards_without_channels<T: Token + Drop>(
    alloc: Global,
    shards: usize,
) -> Result<Vec<ShardEnds<T>>, AllocError>
    ensures { (capacity : ℕ) → IfOk result (λ ends. AreChannels 0 shards capacity [] ends.items) }
{
    let mut far = Vec::with_capacity(alloc, shards)?;
    for number in 0..shards {
        far.push(ShardEnds::new(alloc, number))?;
    }
    Ok(far)
}

/// One channel more for each shard: the other ends are those of the seat of this number.
fn row<T: Token + Drop, S: Source<T>>(
    alloc: Global,
    capacity: usize,
    number: usize,
    shards: &mut Vec<ShardEnds<T>>,
    source: &mut S,
) -> Result<Vec<SeatChannel<T>>, AllocError>
    requires { 0 < capacity }
    ensures joins { IfOk result (λ row. Joins (S.name source.old) number capacity
        shards.old.items shards.new.items row.items) }
    ensures source { S.name source.new ≡ S.name source.old }
{
    let mut row = Vec::with_capacity(alloc, shards.len())?;
    for shard in shards.iter_mut() {
        let (near, far) = channel(
            alloc,
            capacity,
            Numbers {
                seat: number,
                shard: shard.number(),
            },
            source,
        )?;
        shard.add(far)?;
        row.push(near)?;
    }
    Ok(row)
}

/// Both ends of a new channel.
fn channel<T: Token + Drop, S: Source<T>>(
    alloc: Global,
    capacity: usize,
    numbers: Numbers,
    source: &mut S,
) -> Result<(SeatChannel<T>, ShardChannel<T>), AllocError>
    requires { 0 < capacity }
    ensures near { IfOk result (λ ends. IsUnused ends.0) }
    ensures far { IfOk result (λ ends. IsUnused ends.1) }
    ensures channel { IfOk result (λ ends. ends.1.past.channel ≡ ends.0.past.channel) }
    ensures capacity { IfOk result (λ ends. ends.0.past.channel.capacity ≡ capacity) }
    ensures route { IfOk result (λ ends. ends.0.past.channel.route ≡
        record { seat = numbers.seat; shard = numbers.shard; name = S.name source.old }) }
    ensures source { S.name source.new ≡ S.name source.old }
{
    let first = Stamped::first(Request::End, source.token(), numbers);
    let (send, take) = ring::<Request, T, Requests<T>>(alloc, capacity, first)?;
    let first = Stamped::first(no_reply(), source.token(), numbers);
    let (give, receive) = ring::<Reply, T, Replies<T>>(alloc, capacity, first)?;
    let near = SeatChannel {
        requests: send,
        replies: receive,
    };
    let far = ShardChannel {
        requests: take,
        replies: give,
    };
    Ok((near, far))
}

/// The reply with which a ring of replies begins. Nobody receives it.
#[tactic(auto, unfolding(mc_item::specs::Kind::is_lawful))]
fn no_reply() -> Reply {
    Reply::new(Ticket(0), 0, Kind::Flush, Answer::Done)
}

/// Both ends of a new ring, whose first item was put and taken.
fn ring<I: Drop, T: Token + Drop, P: Protocol<Stamped<I, T>>>(
    alloc: Global,
    capacity: usize,
    first: Stamped<I, T>,
) -> Result<
    (
        Producer<Stamped<I, T>, Global, P>,
        Consumer<Stamped<I, T>, Global, P>,
    ),
    AllocError,
>
    requires capacity { 0 < capacity }
    requires allowed { P.allows [] first }
    ensures pair { IfOk result (λ ends. IsPair ends.0 ends.1) }
    ensures sent { IfOk result (λ ends. sent ends.0 ≡ first ∷ []) }
    ensures received { IfOk result (λ ends. received ends.1 ≡ first ∷ []) }
    ensures known { IfOk result (λ ends. known_items ends.1 ≡ []) }
    ensures free { IfOk result (λ ends. known_free ends.0 ≡ capacity) }
    ensures capacity { IfOk result (λ ends. producer_capacity ends.0 ≡ capacity) }
{
    let (mut producer, mut consumer) = RingBuffer::with_protocol::<Global, P>(alloc, capacity)?;
    producer.push_reserved(first);
    consumer.slots_beside(&mut producer);
    let _first = consumer.pop_known();
    producer.slots_beside(&mut consumer);
    consumer.slots_beside(&mut producer);
    Ok((producer, consumer))
}
