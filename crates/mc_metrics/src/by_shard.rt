//! Metrics by shard.
ghost use Rattle.std.specs.Prelude.{◌≡◌, ◌++◌, OnOk, flat_map, string_bytes};
ghost use Rattle.mc_metrics.specs.Shards.{head_of, name_of, shard_line, shard_lines, text_of, shards_text, value_of};

use mc_telemetry::ShardTotals;
use std::alloc::AllocError;

/// A metric that is reported for each shard.
#[derive(Clone, Copy)]
enum ShardMetric {
    Items,
    Bytes,
    Evicted,
    OutOfMemory,
}

/// The metrics in their order of output.
const SHARD_METRICS: [ShardMetric; 4] = [
    ShardMetric::Items,
    ShardMetric::Bytes,
    ShardMetric::Evicted,
    ShardMetric::OutOfMemory,
];

/// Appends the contents and evictions of each shard, with its number as a label.
pub(crate) fn push_shards(text: &mut String, shards: &[ShardTotals]) -> Result<(), AllocError>
    ensures { OnOk result
        (string_bytes text.new ≡ string_bytes text.old ++ shards_text shards.now) }
{
    push_metrics(text, &SHARD_METRICS, shards)
}

/// Appends these metrics.
fn push_metrics(
    text: &mut String,
    metrics: &[ShardMetric],
    shards: &[ShardTotals],
) -> Result<(), AllocError>
    ensures { OnOk result (string_bytes text.new ≡
        string_bytes text.old ++ flat_map (text_of shards.now) metrics.now) }
{
    for metric in metrics {
        push_metric(text, *metric, shards)?;
    }
    Ok(())
}

/// Appends the HELP and TYPE lines of a metric, and its samples.
fn push_metric(
    text: &mut String,
    metric: ShardMetric,
    shards: &[ShardTotals],
) -> Result<(), AllocError>
    ensures { OnOk result
        (string_bytes text.new ≡ string_bytes text.old ++ text_of shards.now metric) }
{
    text.push_str(metric.head())?;
    push_lines(text, metric, shards)
}

/// Appends a sample of the metric for each shard.
fn push_lines(
    text: &mut String,
    metric: ShardMetric,
    shards: &[ShardTotals],
) -> Result<(), AllocError>
    ensures { OnOk result
        (string_bytes text.new ≡ string_bytes text.old ++ shard_lines metric 0 shards.now) }
{
    for (number, shard) in shards.iter().enumerate() {
        push_line(text, metric, number, metric.value(shard))?;
    }
    Ok(())
}

/// Appends the sample of one shard.
#[tactic(auto, unfolding(crate::specs::Shards::shard_line))]
fn push_line(
    text: &mut String,
    metric: ShardMetric,
    number: usize,
    value: u64,
) -> Result<(), AllocError>
    ensures { OnOk result
        (string_bytes text.new ≡ string_bytes text.old ++ shard_line metric number value) }
{
    let name = metric.name();
    write!(text, "{name}{{shard=\"{number}\"}} {value}\n")
}

impl ShardMetric {
    fn name(self) -> &'static str
        ensures { result.now ≡ name_of self }
    {
        match self {
            ShardMetric::Items => "mcd_shard_items",
            ShardMetric::Bytes => "mcd_shard_bytes",
            ShardMetric::Evicted => "mcd_shard_evicted_total",
            ShardMetric::OutOfMemory => "mcd_shard_out_of_memory_total",
        }
    }

    fn head(self) -> &'static str
        ensures { result.now ≡ head_of self }
    {
        match self {
            ShardMetric::Items => {
                "# HELP mcd_shard_items Number of items in the shard.\n# TYPE mcd_shard_items gauge\n"
            }
            ShardMetric::Bytes => {
                "# HELP mcd_shard_bytes Cost of the items in the shard, in bytes.\n# TYPE mcd_shard_bytes gauge\n"
            }
            ShardMetric::Evicted => {
                "# HELP mcd_shard_evicted_total Items of the shard evicted to make room.\n# TYPE mcd_shard_evicted_total counter\n"
            }
            ShardMetric::OutOfMemory => {
                "# HELP mcd_shard_out_of_memory_total Commands that failed because the shard had no memory left.\n# TYPE mcd_shard_out_of_memory_total counter\n"
            }
        }
    }

    fn value(self, shard: &ShardTotals) -> u64
        ensures { result ≡ value_of self shard.now }
    {
        match self {
            ShardMetric::Items => shard.items,
            ShardMetric::Bytes => shard.bytes,
            ShardMetric::Evicted => shard.evicted,
            ShardMetric::OutOfMemory => shard.out_of_memory,
        }
    }
}
