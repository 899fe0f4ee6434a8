//! The calls on functions of points, each made only where it may be.

use crate::stopped::Stopped;
use sp_dd::{Ids, Scope};
use std::alloc::Global;

/// A function of the points of a scope, in one of its forms. A call that may not be made stops.
pub trait Function: Drop {
    /// The value at a point.
    fn value(&self, point: &[u64]) -> Result<i128, Stopped>;

    fn constant(alloc: Global, scope: &Scope, value: i128) -> Result<Self, Stopped>;

    fn leaf_by(alloc: Global, scope: &Scope, slot: u64, leaves: &[i128]) -> Result<Self, Stopped>;

    fn branch(alloc: Global, scope: &Scope, slot: u64, parts: &[Self]) -> Result<Self, Stopped>;

    fn add(alloc: Global, f: &Self, g: &Self) -> Result<Self, Stopped>;

    fn mul_floor(alloc: Global, f: &Self, g: &Self) -> Result<Self, Stopped>;

    fn mul_whole(alloc: Global, f: &Self, g: &Self) -> Result<Option<Self>, Stopped>;

    fn times(alloc: Global, f: &Self, k: i128) -> Result<Self, Stopped>;

    fn sum_out(alloc: Global, f: &Self, slot: u64) -> Result<Self, Stopped>;

    fn weigh_out(alloc: Global, f: &Self, slot: u64, p: &Self) -> Result<Self, Stopped>;

    fn max_with(alloc: Global, f: &Self, least: i128) -> Result<Self, Stopped>;

    fn restrict(alloc: Global, f: &Self, slot: u64, value: u64) -> Result<Self, Stopped>;

    fn prime(alloc: Global, f: &Self) -> Result<Self, Stopped>;

    fn unprime(alloc: Global, f: &Self) -> Result<Self, Stopped>;

    fn diagonal(alloc: Global, f: &Self, primed: u64) -> Result<Self, Stopped>;

    fn dot(alloc: Global, w: &Self, f: &Self) -> Result<i128, Stopped>;

    fn below(alloc: Global, f: &Self, g: &Self) -> Result<Option<Ids>, Stopped>;

    fn first_apart(alloc: Global, f: &Self, value: i128) -> Result<Option<Ids>, Stopped>;

    fn least(f: &Self) -> i128;

    fn greatest(f: &Self) -> i128;

    fn is_same(f: &Self, g: &Self) -> Result<bool, Stopped>;

    fn is_dependent(f: &Self, slot: u64) -> Result<bool, Stopped>;

    /// The function once more.
    fn copied(alloc: Global, f: &Self) -> Result<Self, Stopped>;

    /// How many nodes it has. A table has none, and stops.
    fn node_count(f: &Self) -> Result<usize, Stopped>;
}

/// The farthest from 0 that a summand may be.
pub const SUMMAND: u128 = 0x2000_0000_0000_0000_0000_0000_0000_0000;

/// The farthest from 0 that a value summed over a slot may be.
pub const SLOT_SUMMAND: u128 = 0x10_0000_0000_0000_0000_0000_0000;

/// The farthest from 0 that a factor may be.
pub const FACTOR: u128 = 0x4000_0000_0000_0000;
