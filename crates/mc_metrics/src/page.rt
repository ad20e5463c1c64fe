//! The status page: one HTML document without scripts, which reloads itself.
ghost use Rattle.std.specs.Prelude.{◌≡◌, ◌≤◌, ◌-◌, ◌/◌};
ghost use Rattle.mc_metrics.specs.Amounts.{percent_of};

use crate::amounts::{Unit, percent_of, push_amount, push_bytes, push_duration, push_grouped};
use crate::history::KEPT;
use crate::process::Process;
use crate::reading::{Facts, Reading};
use mc_telemetry::{CommandTotals, ShardTotals, Totals};
use std::alloc::{AllocError, Global};

/// Sampling interval in seconds.
pub(crate) const SAMPLE_SECONDS: u64 = 5;

/// Geometry of a chart in SVG units: distance of two points, width and height.
const STEP: usize = 5;

const WIDTH: usize = STEP * (KEPT - 1);

const HEIGHT: u64 = 100;

/// HTML before the title.
const HEAD: &str = "<!doctype html>
<html lang=\"en\">
<head>
<meta charset=\"utf-8\">
<meta name=\"viewport\" content=\"width=device-width, initial-scale=1\">
<meta name=\"color-scheme\" content=\"light dark\">
<meta http-equiv=\"refresh\" content=\"5\">
<title>";

/// HTML between the title and the heading.
const STYLE: &str = "</title>
<style>
:root { color-scheme: light dark; --text: #222; --back: #fff; --faint: #666; --frame: #bbb; --curve: #0a58a6; --limit: #b3261e }
@media (prefers-color-scheme: dark) {
:root { --text: #ddd; --back: #15181c; --faint: #9aa0a6; --frame: #454a50; --curve: #6cb2ff; --limit: #ff8a80 }
}
body { font: 16px/1.4 sans-serif; margin: 1rem auto; max-width: 76rem; padding: 0 1rem; color: var(--text); background: var(--back) }
a { color: var(--curve) }
main { display: grid; grid-template-columns: repeat(auto-fit, minmax(19rem, 1fr)); gap: 1rem }
figure { margin: 0; border: 1px solid var(--frame); padding: .5rem; display: flex; flex-direction: column }
figcaption { flex: 1 }
small, .top, .zero, .times { color: var(--faint); font-size: .8rem }
small { white-space: nowrap }
.plot { display: grid; grid-template-columns: 5rem 1fr; grid-template-rows: auto 1fr auto auto; column-gap: .4rem }
.top, .zero { text-align: right; white-space: nowrap }
.zero { grid-row: 3 }
svg { grid-column: 2; grid-row: 1 / 4; width: 100%; height: 6rem }
.times { grid-column: 2; display: grid; grid-template-columns: 1fr 1fr 1fr }
.times :nth-child(2) { text-align: center }
.times :last-child { text-align: right }
path { fill: none; vector-effect: non-scaling-stroke }
.axes { stroke: var(--frame) }
.limit { stroke: var(--limit); stroke-dasharray: 6 4 }
.curve { stroke: var(--curve); stroke-width: 2; stroke-linecap: round }
dl { display: grid; grid-template-columns: auto 1fr; gap: .1rem .8rem; margin: .4rem 0 0 }
dt { color: var(--faint) }
dd { margin: 0 }
</style>
</head>
<body>
<h1>";

/// The time axis below a chart, and the end of its figure.
const FOOT: &str =
    "<div class=\"times\"><span>10 min ago</span><span>5 min ago</span><span>now</span></div></div></figure>\n";

/// A chart of the last minutes.
#[derive(Clone, Copy)]
enum Curve {
    Requests,
    Hits,
    Items,
    Bytes,
    Evictions,
    Connections,
    Read,
    Written,
}

/// The charts in their order of output.
const CURVES: [Curve; 8] = [
    Curve::Requests,
    Curve::Hits,
    Curve::Items,
    Curve::Bytes,
    Curve::Evictions,
    Curve::Connections,
    Curve::Read,
    Curve::Written,
];

impl Curve {
    fn title(self) -> &'static str {
        match self {
            Curve::Requests => "Requests",
            Curve::Hits => "Hit ratio",
            Curve::Items => "Items",
            Curve::Bytes => "Memory of items",
            Curve::Evictions => "Evictions",
            Curve::Connections => "Connections",
            Curve::Read => "Read from clients",
            Curve::Written => "Written to clients",
        }
    }

    /// The unit of its values.
    fn unit(self) -> Unit {
        match self {
            Curve::Requests | Curve::Evictions => Unit::NumberPerSecond,
            Curve::Hits => Unit::Percent,
            Curve::Items | Curve::Connections => Unit::Number,
            Curve::Bytes => Unit::Bytes,
            Curve::Read | Curve::Written => Unit::BytesPerSecond,
        }
    }

    /// The upper bound of its values, if there is one.
    fn limit(self, facts: &Facts) -> Option<u64> {
        match self {
            Curve::Bytes => Some(facts.limit_bytes),
            Curve::Connections => Some(facts.seats),
            _ => None,
        }
    }

    /// The smallest maximum of its axis: its limit, or 100 percent.
    fn least_top(self, facts: &Facts) -> u64 {
        match self {
            Curve::Hits => 100,
            _ => self.limit(facts).unwrap_or(0),
        }
    }

    /// Its value at a sample, from that sample and the previous one; `None` if undefined.
    fn point(self, before: &Totals, now: &Totals) -> Option<u64> {
        match self {
            Curve::Requests => Some(a_second(requests(&before.shards), requests(&now.shards))),
            Curve::Hits => hit_percent(&before.shards.get, &now.shards.get),
            Curve::Items => Some(now.shards.items),
            Curve::Bytes => Some(now.shards.bytes),
            Curve::Evictions => Some(a_second(before.shards.evicted, now.shards.evicted)),
            Curve::Connections => Some(now.open()),
            Curve::Read => Some(a_second(before.read, now.read)),
            Curve::Written => Some(a_second(before.written, now.written)),
        }
    }

    /// Its values, one for each sample but the oldest.
    fn points(self, alloc: Global, samples: &[Totals]) -> Result<Vec<Option<u64>>, AllocError> {
        let mut points = Vec::with_capacity(alloc, samples.len())?;
        for place in 1..samples.len() {
            points.push(self.point(&samples[place - 1], &samples[place]))?;
        }
        Ok(points)
    }
}

/// The largest value, if there is any.
fn peak_of(points: &[Option<u64>]) -> Option<u64> {
    let mut peak = None;
    for point in points {
        peak = greater_of(peak, *point);
    }
    peak
}

/// The larger of two optional values.
fn greater_of(one: Option<u64>, other: Option<u64>) -> Option<u64> {
    match (one, other) {
        (Some(one), Some(other)) => Some(one.max(other)),
        (None, point) | (point, None) => point,
    }
}

/// The height of a value, if `top` is the maximum of the axis.
fn height_of(point: u64, top: u64) -> u64
    ensures { result ≤ HEIGHT }
{
    if top == 0 {
        return 0;
    }
    (point.saturating_mul(HEIGHT) / top).min(HEIGHT)
}

/// The whole page: the current state of the server on this host, and the charts of the samples.
pub fn page_of(
    alloc: Global,
    host: &str,
    reading: &Reading,
    samples: &[Totals],
) -> Result<String, AllocError> {
    let mut text = String::new(alloc);
    push_head(&mut text, host, &reading.facts)?;
    push_server(&mut text, reading)?;
    for curve in &CURVES {
        push_curve(alloc, &mut text, *curve, &reading.facts, samples)?;
    }
    text.push_str("</main>\n</body>\n</html>\n")?;
    Ok(text)
}

/// Appends everything before the figures.
fn push_head(text: &mut String, host: &str, facts: &Facts) -> Result<(), AllocError> {
    let Facts { version, ports, .. } = facts;
    let port = ports.first().copied().unwrap_or(0);
    write!(text, "{HEAD}{host}:{port} mcd{STYLE}")?;
    write!(text, "mcd {version} on {host}:{port}</h1>\n")?;
    text.push_str(
        "<p>The curves show the last ten minutes, with dashed lines for limits. <a href=\"/metrics\">All metrics</a></p>\n<main>\n",
    )
}

/// Appends the figure with the current state.
fn push_server(text: &mut String, reading: &Reading) -> Result<(), AllocError> {
    text.push_str("<figure><figcaption><b>Server</b></figcaption><dl>\n<dt>Uptime</dt><dd>")?;
    push_duration(text, reading.uptime)?;
    text.push_str("</dd>\n<dt>Connections</dt><dd>")?;
    push_grouped(text, reading.totals.accepted)?;
    text.push_str(" accepted, ")?;
    push_grouped(text, reading.waiting)?;
    text.push_str(" waiting</dd>\n<dt>Shards</dt><dd>")?;
    push_grouped(text, reading.facts.shards)?;
    push_process(text, &reading.process)?;
    text.push_str("</dd>\n</dl></figure>\n")
}

/// Appends the resources used by the process.
fn push_process(text: &mut String, process: &Process) -> Result<(), AllocError> {
    text.push_str("</dd>\n<dt>Process memory</dt><dd>")?;
    push_bytes(text, process.resident)?;
    text.push_str("</dd>\n<dt>CPU time</dt><dd>")?;
    push_duration(text, process.cpu / 100)?;
    text.push_str("</dd>\n<dt>Open files</dt><dd>")?;
    push_grouped(text, process.open_files)?;
    if process.most_files == u64::MAX {
        return Ok(());
    }
    text.push_str(" of ")?;
    push_grouped(text, process.most_files)
}

/// Appends a chart as a figure. The newest value is at the right.
fn push_curve(
    alloc: Global,
    text: &mut String,
    curve: Curve,
    facts: &Facts,
    samples: &[Totals],
) -> Result<(), AllocError> {
    let points = curve.points(alloc, samples)?;
    let peak = peak_of(&points);
    let newest = points.last().copied().unwrap_or(None);
    let limit = curve.limit(facts);
    let top = curve.least_top(facts).max(peak.unwrap_or(0));
    push_caption(text, curve, newest, limit, peak)?;
    push_axes(text, curve, top)?;
    push_limit(text, limit, top)?;
    text.push_str("<path class=\"curve\" d=\"")?;
    push_points(text, &points, top)?;
    write!(text, "\"/></svg>{FOOT}")
}

/// Appends a chart's caption: its newest value, its limit and its peak.
fn push_caption(
    text: &mut String,
    curve: Curve,
    newest: Option<u64>,
    limit: Option<u64>,
    peak: Option<u64>,
) -> Result<(), AllocError> {
    let title = curve.title();
    write!(text, "<figure><figcaption><b>{title}</b> ")?;
    match newest {
        Some(newest) => push_amount(text, curve.unit(), newest)?,
        None => text.push_str("n/a")?,
    }
    push_known(text, " of ", curve.unit(), limit)?;
    text.push_str(" <small>")?;
    push_known(text, "peak ", curve.unit(), peak)?;
    text.push_str("</small></figcaption>")
}

/// Appends an optional amount with these words before it.
fn push_known(
    text: &mut String,
    words: &str,
    unit: Unit,
    amount: Option<u64>,
) -> Result<(), AllocError> {
    let Some(amount) = amount else {
        return Ok(());
    };
    text.push_str(words)?;
    push_amount(text, unit, amount)
}

/// Appends the axes and their labels.
fn push_axes(text: &mut String, curve: Curve, top: u64) -> Result<(), AllocError> {
    let title = curve.title();
    text.push_str("<div class=\"plot\"><span class=\"top\">")?;
    push_amount(text, curve.unit(), top)?;
    write!(
        text,
        "</span><span class=\"zero\">0</span><svg viewBox=\"0 -4 {WIDTH} 108\" preserveAspectRatio=\"none\" role=\"img\" aria-label=\"{title}\">"
    )?;
    write!(
        text,
        "<path class=\"axes\" d=\"M0,0V{HEIGHT}H{WIDTH}V0M300,0V{HEIGHT}\"/>"
    )
}

/// Appends the line of the limit.
fn push_limit(text: &mut String, limit: Option<u64>, top: u64) -> Result<(), AllocError> {
    let Some(limit) = limit else {
        return Ok(());
    };
    let y = HEIGHT - height_of(limit, top);
    write!(text, "<path class=\"limit\" d=\"M0,{y}H{WIDTH}\"/>")
}

/// Appends the curve, with a gap where a value is undefined.
fn push_points(text: &mut String, points: &[Option<u64>], top: u64) -> Result<(), AllocError> {
    let skipped = KEPT.saturating_sub(points.len());
    let mut follows = false;
    for (place, point) in points.iter().enumerate() {
        if let Some(point) = point {
            let x = place.saturating_add(skipped).saturating_mul(STEP);
            push_point(text, x, HEIGHT - height_of(*point, top), follows)?;
        }
        follows = point.is_some();
    }
    Ok(())
}

/// Appends a point: a line segment from the previous point, or else a dot.
fn push_point(text: &mut String, x: usize, y: u64, follows: bool) -> Result<(), AllocError> {
    if follows {
        write!(text, "L{x},{y}")
    } else {
        write!(text, "M{x},{y}h0")
    }
}

/// Number of commands of all kinds, whatever their outcome.
fn requests(shards: &ShardTotals) -> u64 {
    let all = shards.all();
    all.hits
        .saturating_add(all.misses)
        .saturating_add(all.bad_values)
        .saturating_add(all.no_memory)
        .saturating_add(all.refused)
}

/// Hit ratio of the gets between two samples in percent; `None` without gets.
fn hit_percent(before: &CommandTotals, now: &CommandTotals) -> Option<u64>
    ensures { result ≡
        percent_of (now.now.hits - before.now.hits) (now.now.misses - before.now.misses) }
{
    let hits = now.hits.saturating_sub(before.hits);
    let misses = now.misses.saturating_sub(before.misses);
    percent_of(hits, misses)
}

/// Increase per second between two samples.
fn a_second(before: u64, now: u64) -> u64
    ensures { result ≡ (now - before) / SAMPLE_SECONDS }
{
    now.saturating_sub(before) / SAMPLE_SECONDS
}
