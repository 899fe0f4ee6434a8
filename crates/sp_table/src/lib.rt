//! Functions of the points of a scope as dense tables.
//!
//! A table has a cell for each point of the slots that it mentions. It may mention a slot on which its function doesn't depend.
//! Each call answers the function that `sp_dd` names, and refuses for want of memory alone; a table with 2^63 cells or more counts as such.
#![tactic(auto)]

ghost use Rattle.std.specs.Prelude.{◌≡◌, ◌<◌, ◌↔◌, length, IsTrue};
ghost use Rattle.std.specs.Bool.{OnTrue, OnFalse};
ghost use Rattle.sp_dd.specs.Func.{DependsOn, IsFunc, IsIndependentOf, IsPointOf, IsScope, value_of};

mod arithmetic;
mod branches;
mod cells;
mod comparing;
mod frames;
mod orders;
mod places;
mod pointwise;
mod renaming;
mod searches;
mod slotwise;
mod totals;

pub use branches::branch;
pub use comparing::{below, first_apart};
use comparing::{agrees, moves};
pub use orders::{greatest, least};
use places::place_in;
pub use pointwise::{add, constant, leaf_by, max_with, mul_floor, mul_whole, times};
pub use renaming::{diagonal, prime, unprime};
pub use slotwise::{restrict, sum_out, weigh_out};
use sp_dd::Scope;
use std::marker::Model;
pub use totals::dot;

/// A function of the points of a scope.
#[derive(Drop)]
pub struct Table {
    scope: Scope,
    widths: Vec<u64>,
    cells: Vec<i128>,
}

impl Model for Table {
    ghost use Rattle.sp_dd.specs.Func.{Func};
    ghost use Rattle.sp_table.specs.Cells.{meaning, IsTable};

    ghost Value = { Func };

    ghost view = { λ t. meaning t.scope t.widths.items t.cells.items };

    ghost invariant = { λ t. IsTable t.scope t.widths.items t.cells.items };
}

impl Table {
    /// The value at a point, which gives each slot a value. Takes no memory.
    pub fn value_at(&self, point: &[u64]) -> i128
        requires { IsPointOf self.now point.now }
        ensures { result ≡ value_of self.now point.now }
    {
        self.cells[place_in(self.widths.as_slice(), point)]
    }

    /// The scope of the points. Takes no memory.
    pub fn scope(&self) -> &Scope
        ensures value { result.now ≡ self.now.shape }
        ensures known { IsScope self.now.shape }
        ensures determined { IsFunc self.now }
    {
        &self.scope
    }

    /// Whether two functions of one scope are the same. Takes no memory.
    pub fn same(&self, other: &Table) -> bool
        requires { self.now.shape ≡ other.now.shape }
        ensures { IsTrue result ↔ (self.now ≡ other.now) }
    {
        agrees(self, other) && agrees(other, self)
    }

    /// Whether the function differs at two points that differ in that slot alone. Takes no memory.
    pub fn depends(&self, slot: u64) -> bool
        requires { slot < length self.now.shape.sizes }
        ensures yes { OnTrue result (DependsOn self.now slot) }
        ensures no { OnFalse result (IsIndependentOf self.now slot) }
    {
        moves(self, slot as usize)
    }
}
