//! The calls on tables.

use crate::function::{FACTOR, Function, SLOT_SUMMAND, SUMMAND};
use crate::stopped::Stopped;
use sp_dd::{Ids, Scope};
use sp_table::Table;
use sp_yardstick::scopes;
use sp_yardstick::tables::{
    are_of, are_weights, has_same_scope, has_slot, has_value, is_on_primed, is_on_unprimed,
    is_point, is_row, is_within, is_within_times,
};
use std::alloc::Global;

impl Function for Table {
    fn value(&self, point: &[u64]) -> Result<i128, Stopped> {
        if !is_point(self, point) {
            return Err(Stopped);
        }
        Ok(self.value_at(point))
    }

    fn constant(alloc: Global, scope: &Scope, value: i128) -> Result<Table, Stopped> {
        Ok(sp_table::constant(alloc, scope, value)?)
    }

    fn leaf_by(alloc: Global, scope: &Scope, slot: u64, leaves: &[i128]) -> Result<Table, Stopped> {
        if !scopes::has_slot(scope, slot) {
            return Err(Stopped);
        }
        if leaves.len() as u64 != scope.size(slot) {
            return Err(Stopped);
        }
        Ok(sp_table::leaf_by(alloc, scope, slot, leaves)?)
    }

    fn branch(alloc: Global, scope: &Scope, slot: u64, parts: &[Table]) -> Result<Table, Stopped> {
        if !scopes::has_slot(scope, slot) {
            return Err(Stopped);
        }
        if parts.len() as u64 != scope.size(slot) || !are_of(scope, parts) {
            return Err(Stopped);
        }
        Ok(sp_table::branch(alloc, scope, slot, parts)?)
    }

    fn add(alloc: Global, f: &Table, g: &Table) -> Result<Table, Stopped> {
        if !has_same_scope(f, g) {
            return Err(Stopped);
        }
        if !is_within(f, SUMMAND) || !is_within(g, SUMMAND) {
            return Err(Stopped);
        }
        Ok(sp_table::add(alloc, f, g)?)
    }

    fn mul_floor(alloc: Global, f: &Table, g: &Table) -> Result<Table, Stopped> {
        if !has_same_scope(f, g) {
            return Err(Stopped);
        }
        if !is_within(f, FACTOR) || !is_within(g, FACTOR) {
            return Err(Stopped);
        }
        Ok(sp_table::mul_floor(alloc, f, g)?)
    }

    fn mul_whole(alloc: Global, f: &Table, g: &Table) -> Result<Option<Table>, Stopped> {
        if !has_same_scope(f, g) {
            return Err(Stopped);
        }
        if !is_within(f, FACTOR) || !is_within(g, FACTOR) {
            return Err(Stopped);
        }
        Ok(sp_table::mul_whole(alloc, f, g)?)
    }

    fn times(alloc: Global, f: &Table, k: i128) -> Result<Table, Stopped> {
        if !is_within_times(f, k) {
            return Err(Stopped);
        }
        Ok(sp_table::times(alloc, f, k)?)
    }

    fn sum_out(alloc: Global, f: &Table, slot: u64) -> Result<Table, Stopped> {
        if !has_slot(f, slot) {
            return Err(Stopped);
        }
        if !is_within(f, SLOT_SUMMAND) {
            return Err(Stopped);
        }
        Ok(sp_table::sum_out(alloc, f, slot)?)
    }

    fn weigh_out(alloc: Global, f: &Table, slot: u64, p: &Table) -> Result<Table, Stopped> {
        if !has_same_scope(f, p) {
            return Err(Stopped);
        }
        if !has_slot(p, slot) {
            return Err(Stopped);
        }
        if !is_within(f, FACTOR) || !is_row(alloc, p, slot)? {
            return Err(Stopped);
        }
        Ok(sp_table::weigh_out(alloc, f, slot, p)?)
    }

    fn max_with(alloc: Global, f: &Table, least: i128) -> Result<Table, Stopped> {
        Ok(sp_table::max_with(alloc, f, least)?)
    }

    fn restrict(alloc: Global, f: &Table, slot: u64, value: u64) -> Result<Table, Stopped> {
        if !has_slot(f, slot) {
            return Err(Stopped);
        }
        if !has_value(f, slot, value) {
            return Err(Stopped);
        }
        Ok(sp_table::restrict(alloc, f, slot, value)?)
    }

    fn prime(alloc: Global, f: &Table) -> Result<Table, Stopped> {
        if !is_on_unprimed(f) {
            return Err(Stopped);
        }
        Ok(sp_table::prime(alloc, f)?)
    }

    fn unprime(alloc: Global, f: &Table) -> Result<Table, Stopped> {
        if !is_on_primed(f) {
            return Err(Stopped);
        }
        Ok(sp_table::unprime(alloc, f)?)
    }

    fn diagonal(alloc: Global, f: &Table, primed: u64) -> Result<Table, Stopped> {
        if !scopes::is_primed(f.scope(), primed) {
            return Err(Stopped);
        }
        Ok(sp_table::diagonal(alloc, f, primed)?)
    }

    fn dot(alloc: Global, w: &Table, f: &Table) -> Result<i128, Stopped> {
        if !has_same_scope(w, f) || !is_on_unprimed(w) {
            return Err(Stopped);
        }
        if !is_on_unprimed(f) || !are_weights(w) {
            return Err(Stopped);
        }
        if !is_within(f, FACTOR) {
            return Err(Stopped);
        }
        Ok(sp_table::dot(alloc, w, f)?)
    }

    fn below(alloc: Global, f: &Table, g: &Table) -> Result<Option<Ids>, Stopped> {
        if !has_same_scope(f, g) {
            return Err(Stopped);
        }
        Ok(sp_table::below(alloc, f, g)?)
    }

    fn first_apart(alloc: Global, f: &Table, value: i128) -> Result<Option<Ids>, Stopped> {
        Ok(sp_table::first_apart(alloc, f, value)?)
    }

    fn least(f: &Table) -> i128 {
        sp_table::least(f)
    }

    fn greatest(f: &Table) -> i128 {
        sp_table::greatest(f)
    }

    fn is_same(f: &Table, g: &Table) -> Result<bool, Stopped> {
        if !has_same_scope(f, g) {
            return Err(Stopped);
        }
        Ok(f.same(g))
    }

    fn is_dependent(f: &Table, slot: u64) -> Result<bool, Stopped> {
        if !has_slot(f, slot) {
            return Err(Stopped);
        }
        Ok(f.depends(slot))
    }

    /// A table is copied as one times itself.
    fn copied(alloc: Global, f: &Table) -> Result<Table, Stopped> {
        Self::times(alloc, f, 1)
    }

    fn node_count(_: &Table) -> Result<usize, Stopped> {
        Err(Stopped)
    }
}
