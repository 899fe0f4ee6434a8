//! The calls on diagrams.

use crate::function::{FACTOR, Function, SLOT_SUMMAND, SUMMAND};
use crate::stopped::Stopped;
use sp_dd::{Diagram, Ids, Scope};
use sp_yardstick::diagrams::{
    are_of, are_weights, has_same_scope, has_slot, has_value, is_on_primed, is_on_unprimed,
    is_point, is_row, is_within, is_within_times,
};
use sp_yardstick::scopes;
use std::alloc::Global;

impl Function for Diagram {
    fn value(&self, point: &[u64]) -> Result<i128, Stopped> {
        if !is_point(self, point) {
            return Err(Stopped);
        }
        Ok(self.value_at(point))
    }

    fn constant(alloc: Global, scope: &Scope, value: i128) -> Result<Diagram, Stopped> {
        Ok(sp_ddops::constant(alloc, scope, value)?)
    }

    fn leaf_by(
        alloc: Global,
        scope: &Scope,
        slot: u64,
        leaves: &[i128],
    ) -> Result<Diagram, Stopped> {
        if !scopes::has_slot(scope, slot) {
            return Err(Stopped);
        }
        if leaves.len() as u64 != scope.size(slot) {
            return Err(Stopped);
        }
        Ok(sp_ddops::leaf_by(alloc, scope, slot, leaves)?)
    }

    fn branch(
        alloc: Global,
        scope: &Scope,
        slot: u64,
        parts: &[Diagram],
    ) -> Result<Diagram, Stopped> {
        if !scopes::has_slot(scope, slot) {
            return Err(Stopped);
        }
        if parts.len() as u64 != scope.size(slot) || !are_of(scope, parts) {
            return Err(Stopped);
        }
        Ok(sp_ddops::branch(alloc, scope, slot, parts)?)
    }

    fn add(alloc: Global, f: &Diagram, g: &Diagram) -> Result<Diagram, Stopped> {
        if !has_same_scope(f, g) {
            return Err(Stopped);
        }
        if !is_within(f, SUMMAND) || !is_within(g, SUMMAND) {
            return Err(Stopped);
        }
        Ok(sp_ddops::add(alloc, f, g)?)
    }

    fn mul_floor(alloc: Global, f: &Diagram, g: &Diagram) -> Result<Diagram, Stopped> {
        if !has_same_scope(f, g) {
            return Err(Stopped);
        }
        if !is_within(f, FACTOR) || !is_within(g, FACTOR) {
            return Err(Stopped);
        }
        Ok(sp_ddops::mul_floor(alloc, f, g)?)
    }

    fn mul_whole(alloc: Global, f: &Diagram, g: &Diagram) -> Result<Option<Diagram>, Stopped> {
        if !has_same_scope(f, g) {
            return Err(Stopped);
        }
        if !is_within(f, FACTOR) || !is_within(g, FACTOR) {
            return Err(Stopped);
        }
        Ok(sp_ddops::mul_whole(alloc, f, g)?)
    }

    fn times(alloc: Global, f: &Diagram, k: i128) -> Result<Diagram, Stopped> {
        if !is_within_times(f, k) {
            return Err(Stopped);
        }
        Ok(sp_ddops::times(alloc, f, k)?)
    }

    fn sum_out(alloc: Global, f: &Diagram, slot: u64) -> Result<Diagram, Stopped> {
        if !has_slot(f, slot) {
            return Err(Stopped);
        }
        if !is_within(f, SLOT_SUMMAND) {
            return Err(Stopped);
        }
        Ok(sp_ddops::sum_out(alloc, f, slot)?)
    }

    fn weigh_out(alloc: Global, f: &Diagram, slot: u64, p: &Diagram) -> Result<Diagram, Stopped> {
        if !has_same_scope(f, p) {
            return Err(Stopped);
        }
        if !has_slot(p, slot) {
            return Err(Stopped);
        }
        if !is_within(f, FACTOR) || !is_row(alloc, p, slot)? {
            return Err(Stopped);
        }
        Ok(sp_ddops::weigh_out(alloc, f, slot, p)?)
    }

    fn max_with(alloc: Global, f: &Diagram, least: i128) -> Result<Diagram, Stopped> {
        Ok(sp_ddops::max_with(alloc, f, least)?)
    }

    fn restrict(alloc: Global, f: &Diagram, slot: u64, value: u64) -> Result<Diagram, Stopped> {
        if !has_slot(f, slot) {
            return Err(Stopped);
        }
        if !has_value(f, slot, value) {
            return Err(Stopped);
        }
        Ok(sp_ddops::restrict(alloc, f, slot, value)?)
    }

    fn prime(alloc: Global, f: &Diagram) -> Result<Diagram, Stopped> {
        if !is_on_unprimed(f) {
            return Err(Stopped);
        }
        Ok(sp_ddops::prime(alloc, f)?)
    }

    fn unprime(alloc: Global, f: &Diagram) -> Result<Diagram, Stopped> {
        if !is_on_primed(f) {
            return Err(Stopped);
        }
        Ok(sp_ddops::unprime(alloc, f)?)
    }

    fn diagonal(alloc: Global, f: &Diagram, primed: u64) -> Result<Diagram, Stopped> {
        if !scopes::is_primed(f.scope(), primed) {
            return Err(Stopped);
        }
        Ok(sp_ddops::diagonal(alloc, f, primed)?)
    }

    fn dot(alloc: Global, w: &Diagram, f: &Diagram) -> Result<i128, Stopped> {
        if !has_same_scope(w, f) || !is_on_unprimed(w) {
            return Err(Stopped);
        }
        if !is_on_unprimed(f) || !are_weights(w) {
            return Err(Stopped);
        }
        if !is_within(f, FACTOR) {
            return Err(Stopped);
        }
        Ok(sp_ddops::dot(alloc, w, f)?)
    }

    fn below(alloc: Global, f: &Diagram, g: &Diagram) -> Result<Option<Ids>, Stopped> {
        if !has_same_scope(f, g) {
            return Err(Stopped);
        }
        Ok(sp_ddops::below(alloc, f, g)?)
    }

    fn first_apart(alloc: Global, f: &Diagram, value: i128) -> Result<Option<Ids>, Stopped> {
        Ok(sp_ddops::first_apart(alloc, f, value)?)
    }

    fn least(f: &Diagram) -> i128 {
        sp_ddops::least(f)
    }

    fn greatest(f: &Diagram) -> i128 {
        sp_ddops::greatest(f)
    }

    fn is_same(f: &Diagram, g: &Diagram) -> Result<bool, Stopped> {
        if !has_same_scope(f, g) {
            return Err(Stopped);
        }
        Ok(f.same(g))
    }

    fn is_dependent(f: &Diagram, slot: u64) -> Result<bool, Stopped> {
        if !has_slot(f, slot) {
            return Err(Stopped);
        }
        Ok(f.depends(slot))
    }

    fn copied(alloc: Global, f: &Diagram) -> Result<Diagram, Stopped> {
        Ok(f.copied(alloc)?)
    }

    fn node_count(f: &Diagram) -> Result<usize, Stopped> {
        Ok(f.nodes().len())
    }
}
