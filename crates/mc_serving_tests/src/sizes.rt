//! The sizes that tests start from.
use mc_command::Profile;
use mc_sizes::Sizes;

/// The sizes of a small server.
pub(crate) const SMALL: Sizes = Sizes {
    profile: Profile::Own,
    seats: 2,
    shards: 2,
    bytes: 65_536,
    ring: 64,
    value: 1_048_576,
    line: 65_536,
    window: 256,
    shutdown: false,
};

/// One slot and one shard, and rings of one place.
pub(crate) const ONE_CHANNEL: Sizes = Sizes {
    seats: 1,
    shards: 1,
    ring: 1,
    ..SMALL
};
