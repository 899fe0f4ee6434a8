//! The tables of a joint observation.

ghost use Rattle.std.specs.Prelude.{◌≡◌, ◌<◌, All, length, IfOk};
ghost use Rattle.sp_dd.specs.Operations.{exchange_of_slots};
ghost use Rattle.sp_theory.specs.Points.{IsPoint, count_of, point_of};
ghost use Rattle.sp_model.specs.Problem.{sizes_of};
ghost use Rattle.sp_value.specs.Editions.{IsVector};
ghost use Rattle.sp_backup.specs.Functions.{IsNextVector, IsNextTable, IsWeighed};
ghost use Rattle.sp_backup.specs.Choosing.{observed_tables, product_with_tables, thinned_vector};

use crate::moving::weigh_next;
use sp_dd::{Ids, NoMemory};
use sp_model::functions::{mul_floor, prime, restrict};
use sp_model::{Func, Funcs, Model};
use std::alloc::Global;

/// The tables of the observation variables of an action, each at its value in a joint observation.
#[derive(Drop)]
pub(crate) struct ObservedTables<'a> {
    pub model: &'a Model,
    pub action: u64,
    pub joint: u64,
    tables: Funcs,
    ghost action_known: { action < length model.now.actions },
    ghost joint_known: { joint < count_of (sizes_of model.now.sights) },
    ghost tables_are: { tables ≡ observed_tables model.now action 0 (point_of (sizes_of model.now.sights) joint) },
}

impl<'a> ObservedTables<'a> {
    /// The tables of a joint observation after an action.
    pub fn new(
        alloc: Global,
        model: &'a Model,
        action: u64,
        joint: u64,
    ) -> Result<ObservedTables<'a>, NoMemory>
        requires action { action < length model.now.actions }
        requires joint { joint < count_of (sizes_of model.now.sights) }
        ensures model { IfOk result (λ x. x.model.now ≡ model.now) }
        ensures action { IfOk result (λ x. x.action ≡ action) }
        ensures joint { IfOk result (λ x. x.joint ≡ joint) }
    {
        let _ = model.parts();
        let seen = observed_values(alloc, model, joint)?;
        let tables = observed(alloc, model, action, seen.as_slice())?;
        Ok(ObservedTables {
            model,
            action,
            joint,
            tables,
        })
    }

    /// A value vector at the next state, multiplied by the tables, rounded down each time, and the next state weighed out.
    pub fn project(&self, alloc: Global, vector: &Func) -> Result<Func, NoMemory>
        requires { IsVector self.now.model.now vector.now }
        ensures { IfOk result (λ r. IsWeighed self.now.model.now self.now.action (thinned_vector self.now.model.now self.now.action self.now.joint (exchange_of_slots vector.now)) r) }
    {
        let _ = self.model.parts();
        let primed = prime(alloc, vector)?;
        let thinned = multiply(alloc, self.model, self.tables.as_slice(), &primed)?;
        let made = weigh_next(alloc, self.model, self.action, thinned)?;
        Ok(made)
    }
}

/// The values of a joint observation, by its number.
fn observed_values(alloc: Global, model: &Model, joint: u64) -> Result<Ids, NoMemory>
    requires { joint < count_of (sizes_of model.now.sights) }
    ensures { IfOk result (λ xs. xs ≡ point_of (sizes_of model.now.sights) joint) }
{
    let _ = model.parts();
    let mut values = Ids::new(alloc);
    let first = 2 * model.variable_count();
    let mut width = model.joint_count();
    let mut rest = joint;
    for j in 0..model.sight_count() {
        width /= model.scope().size(first + j);
        values.push(rest / width)?;
        rest %= width;
    }
    Ok(values)
}

/// The tables of the observation variables of an action, each where its value is observed.
fn observed(alloc: Global, model: &Model, action: u64, seen: &[u64]) -> Result<Funcs, NoMemory>
    requires action { action < length model.now.actions }
    requires seen { IsPoint (sizes_of model.now.sights) seen.now }
    ensures { IfOk result (λ zs. zs ≡ observed_tables model.now action 0 seen.now) }
{
    let _ = model.parts();
    let first = 2 * model.variable_count();
    let mut tables = Funcs::new(alloc);
    for j in 0..model.sight_count() {
        let sight = model.sight(action, j);
        let table = restrict(alloc, sight, first + j, seen[j as usize])?;
        tables.push(table)?;
    }
    Ok(tables)
}

/// `f` multiplied by each table in turn, rounded down each time.
fn multiply(alloc: Global, model: &Model, tables: &[Func], f: &Func) -> Result<Func, NoMemory>
    requires some { 0 < length tables.now }
    requires tables { All (IsNextTable model.now) tables.now }
    requires vector { IsNextVector model.now f.now }
    ensures { IfOk result (λ r. r ≡ product_with_tables tables.now f.now) }
{
    let _ = model.parts();
    let mut out = mul_floor(alloc, &tables[0], f)?;
    for j in 1..tables.len() {
        out = mul_floor(alloc, &tables[j], &out)?;
    }
    Ok(out)
}
