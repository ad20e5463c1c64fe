//! Serves a server's counters over HTTP, as Prometheus metrics and as a status page. It runs on a
//! thread of its own, which never blocks the serving threads. This crate also starts the other
//! threads of telemetry.
#![tactic(auto)]

mod address;
mod amounts;
mod backlog;
mod by_shard;
mod history;
mod host;
mod page;
mod pages;
mod process;
mod reading;
mod server;
mod telemetry;
mod text;
mod visitor;

pub use address::address_of;
pub use history::History;
pub use page::page_of;
pub use pages::Pages;
pub use process::{Process, ProcessTimes};
pub use reading::{Facts, Reading};
pub use server::MetricsServer;
pub use telemetry::{
    Ended, Requester, TelemetryConfig, TelemetryError, TelemetryThreads, start_telemetry,
};
pub use text::metrics_of;
