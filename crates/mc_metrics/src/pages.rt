//! Answers to HTTP requests.
ghost use Rattle.std.specs.Prelude.{◌≡◌, ◌≤◌, ◌<◌, ◌/◌, [], IfOk, Some, string_bytes};
ghost use Rattle.mc_telemetry.specs.Counts.{AreTotals, SameCounts};
ghost use Rattle.mc_metrics.specs.Answers.{AreMetrics, IsAnswer, IsTextAt, is_read, status_at, target_of};
ghost use Rattle.mc_metrics.specs.Samples.{Samples};
ghost use Rattle.mc_metrics.specs.Backlog.{AreWaiting};

use crate::backlog::Tables;
use crate::by_shard::push_shards;
use crate::history::History;
use crate::host::host_name;
use crate::page::{SAMPLE_SECONDS, page_of};
use crate::process::{Process, ProcessFiles};
use crate::reading::{Facts, Reading};
use crate::text::metrics_of;
use bytes::Bytes;
use http::{HeaderValue, Request, StatusCode, header};
use http_server::{Response, Service};
use mc_telemetry::{Count, Counter, Counts};
use std::alloc::{AllocError, Global};
use std::fs::File;
use std::rt::Files;

/// The resource at a path.
#[derive(Clone, Copy)]
enum Target {
    /// The Prometheus metrics.
    Metrics,
    /// The health check.
    Health,
    /// The status page.
    Page,
    /// No resource: 404.
    Nothing,
}

impl Target {
    fn of(path: &str) -> Target
        ensures { result ≡ target_of path.now }
    {
        match path {
            "/metrics" => Target::Metrics,
            "/healthz" => Target::Health,
            "/" => Target::Page,
            _ => Target::Nothing,
        }
    }

    /// The HTTP status of its response.
    fn status(self) -> StatusCode
        ensures { result ≡ status_at self }
    {
        match self {
            Target::Metrics | Target::Health | Target::Page => StatusCode::OK,
            Target::Nothing => StatusCode::NOT_FOUND,
        }
    }

    /// The content type of its response.
    fn kind(self) -> HeaderValue {
        match self {
            Target::Metrics => {
                HeaderValue::from_static("text/plain; version=0.0.4; charset=utf-8")
            }
            Target::Page => HeaderValue::from_static("text/html; charset=utf-8"),
            Target::Health | Target::Nothing => {
                HeaderValue::from_static("text/plain; charset=utf-8")
            }
        }
    }
}

/// Renders the counters of a server's threads.
pub struct Pages<C = Counter> {
    alloc: Global,
    facts: Facts,
    counts: Counts<C>,
    /// Source of the backlog's length.
    tables: Tables,
    /// Uptime of the server in seconds.
    uptime: u64,
    /// Source of the process's resource usage.
    process: ProcessFiles,
    /// The process's resource usage when `/proc` was last read.
    used: Process,
    /// The uptime when `/proc` was last read, if it was.
    refreshed: Option<u64>,
    /// The machine's host name.
    host: String,
    history: History,
}

impl<C: Drop> Drop for Pages<C> {
    /// Written by hand, so that its owners drop it by a single call (docs/DECISIONS.md, F20).
    fn drop(self) {
        let Pages {
            alloc: _alloc,
            facts: _facts,
            counts: _counts,
            tables: _tables,
            uptime: _uptime,
            process: _process,
            used: _used,
            refreshed: _refreshed,
            host: _host,
            history: _history,
        } = self;
    }
}

impl<C: Count> Pages<C> {
    /// For a server that has just started, whose threads use these counters.
    pub fn new<R: Files<File = File>>(
        rt: &R,
        alloc: Global,
        facts: Facts,
        counts: &Counts<C>,
    ) -> Result<Pages<C>, AllocError>
        ensures facts { IfOk result (λ pages. pages.facts ≡ facts) }
        ensures counts { IfOk result (λ pages. SameCounts pages.counts counts.now) }
        ensures uptime { IfOk result (λ pages. pages.uptime ≡ 0) }
        ensures samples { IfOk result (λ pages. pages.history ≡ []) }
    {
        let history = History::new(alloc)?;
        let process = ProcessFiles::open(rt, alloc);
        Ok(Pages {
            alloc,
            facts,
            counts: counts.share(alloc)?,
            tables: Tables::open(rt, alloc),
            uptime: 0,
            used: process.now(),
            process,
            refreshed: None,
            host: host_name(rt, alloc),
            history,
        })
    }

    /// Updates the uptime. Adds a sample if the sampling interval is over.
    pub(crate) fn pass(&mut self, uptime: u64)
        ensures uptime { self.new.uptime ≡ uptime }
        ensures sampled { self.old.uptime / SAMPLE_SECONDS < uptime / SAMPLE_SECONDS →
            Samples C.has_told self.old.counts self.old.history self.new.history }
        ensures early { uptime / SAMPLE_SECONDS ≤ self.old.uptime / SAMPLE_SECONDS →
            self.new.history ≡ self.old.history }
        ensures facts { self.new.facts ≡ self.old.facts }
        ensures counts { self.new.counts ≡ self.old.counts }
    {
        let is_due = uptime / SAMPLE_SECONDS > self.uptime / SAMPLE_SECONDS;
        self.uptime = uptime;
        if is_due {
            self.sample();
        }
    }

    /// Reads the backlog's length and the process's resource usage again, at most once per second
    /// of uptime, since the system's tables may be long.
    pub(crate) fn refresh(&mut self)
        ensures refreshed { self.new.refreshed ≡ Some self.old.uptime }
        ensures once { self.old.refreshed ≡ Some self.old.uptime → self.new ≡ self.old }
        ensures facts { self.new.facts ≡ self.old.facts }
        ensures counts { self.new.counts ≡ self.old.counts }
        ensures uptime { self.new.uptime ≡ self.old.uptime }
        ensures samples { self.new.history ≡ self.old.history }
    {
        if self.refreshed == Some(self.uptime) {
            return;
        }
        self.refreshed = Some(self.uptime);
        self.tables.refresh();
        self.used = self.process.now();
    }

    /// Adds a sample of the current totals for the charts.
    pub(crate) fn sample(&mut self)
        ensures sampled { Samples C.has_told self.old.counts self.old.history self.new.history }
        ensures uptime { self.new.uptime ≡ self.old.uptime }
        ensures facts { self.new.facts ≡ self.old.facts }
        ensures counts { self.new.counts ≡ self.old.counts }
    {
        self.history.add(self.counts.totals());
    }

    /// The current state of the server, with the system's state when it was last read.
    fn reading(&self) -> Reading
        ensures facts { result.facts ≡ self.now.facts }
        ensures totals { AreTotals C.has_told self.now.counts result.totals }
        ensures uptime { result.uptime ≡ self.now.uptime }
        ensures waiting { AreWaiting self.now.facts.ports.now result.waiting }
    {
        Reading {
            facts: self.facts,
            totals: self.counts.totals(),
            waiting: self.tables.waiting(self.facts.ports),
            uptime: self.uptime,
            process: self.used,
        }
    }

    /// The metrics summed over all shards.
    fn metrics(&self) -> Result<String, AllocError>
        ensures { IfOk result (λ text.
            AreMetrics C.has_told self.now.facts self.now.counts self.now.uptime
            (string_bytes text)) }
    {
        metrics_of(self.alloc, &self.reading())
    }

    /// All metrics: summed over all shards, then by shard.
    fn all_metrics(&self) -> Result<String, AllocError>
        ensures { IfOk result (λ text.
            IsTextAt C.has_told Target.Metrics self.now.facts self.now.counts self.now.uptime
            (string_bytes text)) }
    {
        let shards = self.counts.shard_totals(self.alloc)?;
        let mut text = self.metrics()?;
        push_shards(&mut text, &shards)?;
        Ok(text)
    }

    /// The status page in its current state.
    fn page(&self) -> Result<String, AllocError> {
        let host = self.host.as_str();
        page_of(self.alloc, host, &self.reading(), self.history.samples())
    }

    /// The body of the response for this resource.
    fn answer(&self, target: Target) -> Result<Bytes, AllocError>
        ensures { IfOk result (λ body.
            IsTextAt C.has_told target self.now.facts self.now.counts self.now.uptime body) }
    {
        match target {
            Target::Metrics => Bytes::from_string(self.all_metrics()?),
            Target::Page => Bytes::from_string(self.page()?),
            Target::Health => Ok(Bytes::from_static(b"ok\n")),
            Target::Nothing => Ok(Bytes::from_static(b"not found: see /, /metrics and /healthz\n")),
        }
    }
}

impl<C: Count> Service for Pages<C> {
    ghost answers = { λ old request response new.
        (new ≡ old) × IsAnswer C.has_told old.facts old.counts old.uptime request response };

    fn call(
        &mut self,
        request: &Request<Bytes>,
        response: &mut Response,
    ) -> Result<(), AllocError> {
        if !is_read(request.method().as_str()) {
            response.status = StatusCode::METHOD_NOT_ALLOWED;
            return response.add_header(header::ALLOW, HeaderValue::from_static("GET, HEAD"));
        }
        let target = Target::of(request.uri().path());
        response.status = target.status();
        response.add_header(header::CONTENT_TYPE, target.kind())?;
        response.body.push(self.answer(target)?)
    }
}

/// Whether the method only reads (GET or HEAD).
fn is_read(method: &str) -> bool
    ensures { result ≡ is_read method.now }
{
    method == "GET" || method == "HEAD"
}
