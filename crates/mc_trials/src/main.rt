//! Trials with real threads, which serve lines in memory.
//!
//!     mc_trials                                       runs all trials, and prints those that failed
//!     mc_trials threads LINES SHARDS COMMANDS BATCH   serves a load by threads: each line sends COMMANDS
//!                                                     commands, in batches of BATCH per read
//!     mc_trials alone SHARDS COMMANDS BATCH           serves one line by a single thread, without rings
//!     mc_trials history LINES SHARDS COMMANDS SEED    lines that wait for each reply send COMMANDS random
//!                                                     commands each, on few keys; prints their histories
//!
//! For a load it prints the number of commands, the number of lines with wrong replies, the elapsed
//! time, and the processor time before and after (proc_pid_stat(5)). `tools/bench/lines.py`
//! evaluates this.
#![tactic(auto)]

mod asking;
mod chooser;
mod gates;
mod gathered;
mod history;
mod line;
mod load;
mod measured;
mod rising;
mod server;
mod text;
mod trials;

use history::Asked;
use server::Server;
use std::{env, io};

fn main(rt: HostRuntime) -> io::Result<()> {
    let words: Vec<String> = env::args(&rt)?.collect(rt.alloc())?;
    let server = Server {
        rt,
        alloc: rt.alloc(),
    };
    if let [_, mode, rest @ ..] = words.as_slice()
        && mode.as_str() == "history"
        && let Some(asked) = Asked::read(rest)
    {
        return server.tell_history(asked);
    }
    if words.len() > 1 {
        return server.measure(words.as_slice());
    }
    for (name, is_right) in server.trials()? {
        let verdict = if is_right { "right" } else { "WRONG" };
        println!(rt; "{name}: {verdict}")?;
    }
    Ok(())
}
