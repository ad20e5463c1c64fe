//! Makes the workers of a server.
ghost use Rattle.std.specs.Prelude.{◌≡◌, IfOk, map};
ghost use Rattle.std.specs.List.{AllByRecursion};
ghost use Rattle.mc_sizes.specs.Sizes.{SuitShards};
ghost use Rattle.mc_poll.specs.Zips.{Zips};
ghost use Rattle.mc_session.specs.Workers.{AreFresh, IsFresh, IsRecordOf, ends_of};

use mc_ring::{ShardEnds, Token};
use mc_sizes::Sizes;
use mc_worker::{Scribe, Worker};
use std::alloc::{AllocError, Global};
use std::random::RandomSource;

/// Makes a worker with an empty shard for the ends of each shard. Each worker gets the scribe at the
/// same index, which has recorded nothing and is for the channels of these ends. `AllocError`: memory
/// ran out, or there are fewer scribes than ends.
pub fn make_recorded_workers<R: RandomSource, T: Token + Drop, S: Scribe<T> + Drop>(
    rt: &R,
    alloc: Global,
    ends: Vec<ShardEnds<T>>,
    scribes: Vec<S>,
    sizes: Sizes,
) -> Result<Vec<Worker<T, S>>, AllocError>
    requires sizes { SuitShards sizes }
    requires fresh { AllByRecursion (AreFresh sizes.shards) ends.items }
    requires records { Zips (λ ends scribe. S.keeps scribe →
        IsRecordOf sizes ends (S.route scribe) (S.begin scribe) (S.log scribe)) ends.items
        scribes.items }
    ensures ends { IfOk result (λ workers. map ends_of workers.items ≡ ends.items) }
    ensures fresh { IfOk result (λ workers. AllByRecursion (IsFresh sizes) workers.items) }
{
    let mut workers = Vec::with_capacity(alloc, ends.len())?;
    let mut scribes = scribes.into_iter();
    for ends in ends {
        let Some(scribe) = scribes.next() else {
            return Err(AllocError);
        };
        let worker = Worker::start_recorded(rt, alloc, ends, sizes, scribe)?;
        workers.push(worker)?;
    }
    Ok(workers)
}
