//! The book before any event.

ghost use Rattle.std.specs.Prelude.{◌≡◌, IfOk};
ghost use Rattle.std.specs.Arc.{arc_value};

use crate::ledger::Ledger;
use sp_dd::NoMemory;
use sp_ledger::{ListedTask, down_flags, first_edition, leaf_of, one_edition, weigh, zero_values};
use sp_value::Task;
use std::alloc::Global;
use std::sync::Arc;

impl Ledger {
    ghost use Rattle.sp_core.specs.Ledgers.{contents, IsLedger, parts_in};
    ghost use Rattle.sp_core.specs.Opening.{first_parts};

    /// No event.
    pub(crate) fn opened(alloc: Global, task: Arc<Task>) -> Result<Ledger, NoMemory>
        ensures ledger { IfOk result (λ l. IsLedger (contents l)) }
        ensures parts { IfOk result (λ l. parts_in (contents l) ≡ first_parts (arc_value task)) }
    {
        let _ = task.model().scope().slots();
        let beliefs = task.options().beliefs as usize;
        let stages_left = task.options().stages;
        let member = leaf_of(alloc, &task)?;
        let mut latest_values = zero_values(alloc, beliefs)?;
        let task = ListedTask::new(alloc, task)?;
        weigh(alloc, &task, &member.vector, latest_values.as_mut_slice())?;
        let edition = first_edition(alloc, task.task(), member)?;
        let improved = down_flags(alloc, beliefs)?;
        let taken = down_flags(alloc, beliefs)?;
        let grown_values = zero_values(alloc, beliefs)?;
        let worths = zero_values(alloc, beliefs)?;
        let editions = one_edition(alloc, edition)?;
        Ok(Ledger {
            alloc,
            task,
            events: Vec::new(alloc),
            editions,
            records: 1,
            grown: Vec::new(alloc),
            improved,
            taken,
            latest_values,
            grown_values,
            worths,
            stages_left,
            done: false,
        })
    }
}
