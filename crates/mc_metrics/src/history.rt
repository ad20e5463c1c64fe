//! Samples of the last ten minutes.
ghost use Rattle.std.specs.Prelude.{◌≡◌, [], IfOk};

use mc_telemetry::Totals;
use std::alloc::{AllocError, Global};
use std::marker::Model;

/// Number of samples kept.
pub(crate) const KEPT: usize = 121;

/// The last samples of all totals, oldest first.
#[derive(Drop)]
pub struct History {
    samples: Vec<Totals>,
}

impl Model for History {
    ghost use Rattle.std.specs.Prelude.{List, ◌≤◌, length};
    ghost use Rattle.std.specs.Vec.{vec_capacity};
    ghost use Rattle.mc_metrics.specs.declared.history.TheConstants.{KEPT};
    ghost use Rattle.mc_telemetry.specs.declared.counts.Totals.{Totals};

    ghost Value = { List Totals };

    ghost view = { λ history. history.samples.items };

    ghost invariant = { λ history. (length history.samples.items ≤ KEPT) ×
        (KEPT ≤ vec_capacity history.samples) };
}

impl History {
    ghost use Rattle.mc_metrics.specs.Samples.{with_sample};

    /// An empty history. All memory is allocated here.
    pub fn new(alloc: Global) -> Result<History, AllocError>
        ensures { IfOk result (λ history. history ≡ []) }
    {
        Ok(History {
            samples: Vec::with_capacity(alloc, KEPT)?,
        })
    }

    /// Adds a sample. Drops the oldest one if the history is full.
    pub fn add(&mut self, sample: Totals)
        ensures { self.new ≡ with_sample self.old sample }
    {
        if self.samples.len() >= KEPT {
            self.samples.remove(0);
        }
        // Can't fail: the capacity was reserved.
        let _ = self.samples.push(sample);
    }

    /// The samples, oldest first.
    pub fn samples(&self) -> &[Totals]
        ensures { result.now ≡ self.now }
    {
        &self.samples
    }
}
