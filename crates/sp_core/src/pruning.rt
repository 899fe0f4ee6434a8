//! Pruning the latest edition.

ghost use Rattle.std.specs.Prelude.{◌≡◌, ◌+◌, ◌<◌, ◌≤◌, false, IfOk, IfErr, OnOk, OnErr, length, vec_len, vec_capacity};
ghost use Rattle.std.specs.Arc.{arc_value};
ghost use Rattle.sp_theory.specs.OneThread.{applying};

use crate::answers::{PruneError, Pruned};
use crate::ledger::Ledger;
use sp_dd::{NoMemory, Pairs};
use sp_drops::{applied, left};
use sp_ledger::shared_edition;
use sp_value::{Edition, Event};
use std::sync::Arc;

impl Ledger {
    ghost use Rattle.sp_ledger.specs.Accounts.{last_of};
    ghost use Rattle.sp_drops.specs.Drops.{left_by};
    ghost use Rattle.sp_core.specs.Ledgers.{account_in, contents, parts_in, IsLedger};
    ghost use Rattle.sp_core.specs.Settling.{IsOurs};
    ghost use Rattle.sp_core.specs.Pruning.{AreDominatedIn, IsPruned, RefusesPrune, latest_in, left_in, pruned_in};

    /// The pairs that apply to the latest edition.
    fn applying(&self, pairs: &Pairs) -> Result<Pairs, NoMemory>
        requires { IsLedger (contents self.now) }
        ensures { IfOk result (λ found. found ≡ applying (last_of (account_in (contents self.now)).editions) pairs.now) }
    {
        let latest = &self.editions[self.editions.len() - 1];
        let found = applied(self.alloc, latest.members().as_slice(), pairs)?;
        Ok(found)
    }

    /// Makes ready the edition that the pairs leave, and room for it and its event.
    fn left(&mut self, pairs: &Pairs) -> Result<Arc<Edition>, NoMemory>
        requires ledger { IsLedger (contents self.old) }
        requires some { 0 < length (left_by pairs.now (latest_in (contents self.old)).members) }
        ensures same { contents self.new ≡ contents self.old }
        ensures edition { IfOk result (λ e. arc_value e ≡ left_in (contents self.new) pairs.now) }
        ensures events { OnOk result (vec_len self.new.events < vec_capacity self.new.events) }
        ensures editions { OnOk result (vec_len self.new.editions < vec_capacity self.new.editions) }
    {
        self.events.reserve(1)?;
        self.editions.reserve(1)?;
        let latest = &self.editions[self.editions.len() - 1];
        let members = left(self.alloc, latest.members().as_slice(), pairs)?;
        let number = self.editions.len() as u64;
        let edition = shared_edition(self.alloc, number, self.task.task(), members)?;
        Ok(edition)
    }

    /// Drops members: the edition that is left becomes the latest one.
    fn drop_members(&mut self, pairs: Pairs, edition: Arc<Edition>)
        requires edition { arc_value edition ≡ left_in (contents self.old) pairs }
        requires events { vec_len self.old.events < vec_capacity self.old.events }
        requires editions { vec_len self.old.editions < vec_capacity self.old.editions }
        ensures { contents self.new ≡ pruned_in (contents self.old) pairs }
    {
        self.events.push_reserved(Event::Prune { pairs });
        self.editions.push_reserved(edition);
    }

    /// The refusal of a base that isn't one of this book's editions.
    fn not_ours(&self, base: &Arc<Edition>) -> PruneError
        requires going { self.now.done ≡ false }
        requires ledger { IsLedger (contents self.now) }
        requires others { ¬ IsOurs (parts_in (contents self.now)) (arc_value base.now) }
        ensures { RefusesPrune (parts_in (contents self.now)) (arc_value base.now) result }
    {
        let kept = match self.kept(base.number()) {
            Ok(kept) => kept,
            Err(_) => return PruneError::NoMemory,
        };
        match Arc::try_clone(base) {
            Ok(base) => PruneError::NotOurs { base, kept },
            Err(_) => PruneError::NoMemory,
        }
    }

    /// One step of the book, or none, for pairs of an edition of this book.
    pub(crate) fn prune_ours(
        &mut self,
        base: &Arc<Edition>,
        pairs: &Pairs,
    ) -> Result<Pruned, PruneError>
        requires ledger { IsLedger (contents self.old) }
        requires ours { IsOurs (parts_in (contents self.old)) (arc_value base.now) }
        requires pairs { AreDominatedIn (arc_value base.now) pairs.now }
        ensures ledger { IsLedger (contents self.new) }
        ensures ok { IfOk result (λ answer. IsPruned (parts_in (contents self.old)) (arc_value base.now) pairs.now answer (parts_in (contents self.new))) }
        ensures err { IfErr result (RefusesPrune (parts_in (contents self.old)) (arc_value base.now)) }
        ensures unchanged { OnErr result (parts_in (contents self.new) ≡ parts_in (contents self.old)) }
    {
        if self.done {
            return Ok(Pruned::Over);
        }
        let found = match self.applying(pairs) {
            Ok(found) => found,
            Err(_) => return Err(PruneError::NoMemory),
        };
        if found.len() == 0 {
            return Ok(Pruned::Nothing);
        }
        let count = found.len();
        match self.left(&found) {
            Ok(edition) => {
                self.drop_members(found, edition);
                Ok(Pruned::Dropped { count })
            }
            Err(_) => Err(PruneError::NoMemory),
        }
    }

    /// One step of the book, or none.
    pub(crate) fn prune(&mut self, base: &Arc<Edition>, pairs: &Pairs) -> Result<Pruned, PruneError>
        requires ledger { IsLedger (contents self.old) }
        requires pairs { AreDominatedIn (arc_value base.now) pairs.now }
        ensures ledger { IsLedger (contents self.new) }
        ensures ok { IfOk result (λ answer. IsPruned (parts_in (contents self.old)) (arc_value base.now) pairs.now answer (parts_in (contents self.new))) }
        ensures err { IfErr result (RefusesPrune (parts_in (contents self.old)) (arc_value base.now)) }
        ensures unchanged { OnErr result (parts_in (contents self.new) ≡ parts_in (contents self.old)) }
    {
        if self.done {
            return Ok(Pruned::Over);
        }
        if !self.has(base) {
            return Err(self.not_ours(base));
        }
        self.prune_ours(base, pairs)
    }
}
