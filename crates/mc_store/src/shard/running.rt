//! A list of operations, done one after another.
ghost use Rattle.std.specs.Prelude.{◌≡◌, IfOk, OnErr};
ghost use Rattle.mc_store.specs.Runs.{RunsThrough};

use crate::shard::{Shard, StoreError};
use mc_item::{Answer, Op};
use std::alloc::Global;

impl Shard {
    /// Does each operation at its moment, in their order, and answers them all. The room for the
    /// answers is taken before the first operation: where there is none, nothing is done.
    pub fn run_all(
        &mut self,
        alloc: Global,
        asked: Vec<(Op, u64)>,
    ) -> Result<Vec<Answer>, StoreError>
        ensures ran { IfOk result
            (λ answers. RunsThrough self.old asked.items answers.items self.new) }
        ensures refused { OnErr result (self.new ≡ self.old) }
    {
        let mut answers = Vec::with_capacity(alloc, asked.len())?;
        for (op, moment) in asked {
            let answer = self.run(alloc, op, moment);
            let Ok(()) = answers.push(answer) else {
                unreachable!()
            };
        }
        Ok(answers)
    }
}
