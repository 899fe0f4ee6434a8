//! The lines of actions.

ghost use Rattle.std.specs.Prelude.{◌≡◌, ◌+◌, ◌++◌, length, map, All, OnOk, IfOk};
ghost use Rattle.std.specs.List.{range_with_len};
ghost use Rattle.sp_spelled.specs.Signs.{text_of_signs};
ghost use Rattle.sp_rows.specs.Tables.{identity};
ghost use Rattle.sp_model.specs.Problem.{shape_of};
ghost use Rattle.sp_model.specs.Kept.{IsAction, IsModel};
ghost use Rattle.sp_canonical.specs.Lent.{lent_table};
ghost use Rattle.sp_canonical.specs.ModelSigns as signs;
ghost use Rattle.sp_canonical.specs.ModelSigns.{action_signs, actions_signs, block_signs, functions_lines, line_count, named_lines, next_base, tables_of, tables_signs};

use crate::nodes::{line_behind, put_function, put_lines};
use crate::page::{Gap, Page};
use crate::tables::{NamedTable, identities, moving_tables, seen_tables};
use crate::words::put_word;
use sp_dd::NoMemory;
use sp_model::functions::times;
use sp_model::{ActionPart, Func, Name, Parts};
use std::alloc::Global;

/// The lines of all actions, whose functions have lines from that number on.
pub fn put_actions(
    alloc: Global,
    page: &mut Page,
    parts: &Parts,
    base: usize,
) -> Result<(), NoMemory>
    requires { IsModel parts.now }
    ensures { OnOk result (page.new ≡ page.old ++ text_of_signs (actions_signs parts.now base parts.now.actions)) }
{
    let kept = identities(alloc, &parts.scope)?;
    put_each(alloc, page, parts, base, kept.as_slice())
}

/// The lines of one action behind another.
fn put_each(
    alloc: Global,
    page: &mut Page,
    parts: &Parts,
    base: usize,
    kept: &[Func],
) -> Result<(), NoMemory>
    requires actions { All (IsAction (shape_of parts.now)) parts.now.actions }
    requires kept { kept.now ≡ map (identity (shape_of parts.now)) (range_with_len 0 (length parts.now.variables)) }
    ensures { OnOk result (page.new ≡ page.old ++ text_of_signs (actions_signs parts.now base parts.now.actions)) }
{
    let actions = parts.actions.as_slice();
    let mut base = base;
    for i in 0..actions.len() {
        base = put_action(alloc, page, parts, base, &actions[i], kept)?;
    }
    Ok(())
}

/// The lines of an action. Answers the number of the line behind those of its functions.
fn put_action(
    alloc: Global,
    page: &mut Page,
    parts: &Parts,
    base: usize,
    action: &ActionPart,
    kept: &[Func],
) -> Result<usize, NoMemory>
    requires action { IsAction (shape_of parts.now) action.now }
    requires kept { kept.now ≡ map (identity (shape_of parts.now)) (range_with_len 0 (length parts.now.variables)) }
    ensures text { OnOk result (page.new ≡ page.old ++ text_of_signs (action_signs parts.now base action.now)) }
    ensures next { IfOk result (λ next. next ≡ next_base parts.now base action.now) }
{
    let cost = times(alloc, &action.reward, -1)?;
    let moving = moving_tables(alloc, parts, action, kept)?;
    let seen = seen_tables(alloc, parts, action)?;
    let name = &action.name;
    put_tables(
        page,
        parts,
        name,
        base,
        moving.as_slice(),
        seen.as_slice(),
        &cost,
    )
}

/// The lines of tables, and those of the action that names them. Answers the number of the line behind those of the tables.
fn put_tables(
    page: &mut Page,
    parts: &Parts,
    name: &Name,
    base: usize,
    moving: &[NamedTable<'_>],
    seen: &[NamedTable<'_>],
    cost: &Func,
) -> Result<usize, NoMemory>
    requires moving { All (λ t. t.table.shape ≡ shape_of parts.now) (map lent_table moving.now) }
    requires seen { All (λ t. t.table.shape ≡ shape_of parts.now) (map lent_table seen.now) }
    requires cost { cost.now.shape ≡ shape_of parts.now }
    ensures text { OnOk result (page.new ≡ page.old ++ text_of_signs (tables_signs parts.now name.now base (map lent_table moving.now) (map lent_table seen.now) cost.now)) }
    ensures next { IfOk result (λ next. next ≡ signs.line_behind (signs.line_behind base (map lent_table moving.now)) (map lent_table seen.now) + line_count cost.now) }
{
    let from_seen = put_table_lines(page, parts, base, moving)?;
    let from_cost = put_table_lines(page, parts, from_seen, seen)?;
    put_lines(page, parts, from_cost, cost)?;
    let next = line_behind(from_cost, cost)?;
    put_heading(page, name)?;
    put_named(page, base, moving)?;
    put_observed(page, from_seen, seen)?;
    put_cost(page, from_cost, cost)?;
    Ok(next)
}

/// The line with an action's name.
#[tactic(auto, using(crate::proofs::Pieces::printed_heading))]
fn put_heading(page: &mut Page, name: &Name) -> Result<(), NoMemory>
    ensures { OnOk result (page.new ≡ page.old ++ text_of_signs (signs.heading_signs name.now)) }
{
    page.put(b"action ")?;
    put_word(page, name.bytes(), Gap::Line)
}

/// The lines of an action's observation variables.
#[tactic(auto, using(crate::proofs::Pieces::printed_observed))]
fn put_observed(page: &mut Page, base: usize, seen: &[NamedTable<'_>]) -> Result<(), NoMemory>
    ensures { OnOk result (page.new ≡ page.old ++ text_of_signs (signs.observed_signs base (map lent_table seen.now))) }
{
    page.put(b"observe\n")?;
    put_named(page, base, seen)?;
    page.put(b"endobserve\n")
}

/// The line of an action's cost, and the line at its end.
#[tactic(auto, using(crate::proofs::Pieces::printed_cost))]
fn put_cost(page: &mut Page, base: usize, cost: &Func) -> Result<(), NoMemory>
    ensures { OnOk result (page.new ≡ page.old ++ text_of_signs (signs.cost_signs base cost.now)) }
{
    page.put(b"cost ")?;
    put_function(page, base, cost, Gap::Line)?;
    page.put(b"endaction\n")
}

/// The lines of tables. Answers the number of the line behind them.
fn put_table_lines(
    page: &mut Page,
    parts: &Parts,
    base: usize,
    tables: &[NamedTable<'_>],
) -> Result<usize, NoMemory>
    requires { All (λ t. t.table.shape ≡ shape_of parts.now) (map lent_table tables.now) }
    ensures text { OnOk result (page.new ≡ page.old ++ text_of_signs (functions_lines parts.now base (tables_of (map lent_table tables.now)))) }
    ensures next { IfOk result (λ next. next ≡ signs.line_behind base (map lent_table tables.now)) }
{
    let mut base = base;
    for i in 0..tables.len() {
        let table = tables[i].table;
        put_lines(page, parts, base, table)?;
        base = line_behind(base, table)?;
    }
    Ok(base)
}

/// A line for each table.
fn put_named(page: &mut Page, base: usize, tables: &[NamedTable<'_>]) -> Result<(), NoMemory>
    ensures { OnOk result (page.new ≡ page.old ++ text_of_signs (named_lines base (map lent_table tables.now))) }
{
    let mut base = base;
    for i in 0..tables.len() {
        let NamedTable { name, table } = tables[i];
        put_named_line(page, base, name, table)?;
        base = line_behind(base, table)?;
    }
    Ok(())
}

/// The line of a function under a name.
#[tactic(auto, using(crate::proofs::Pieces::printed_named))]
fn put_named_line(page: &mut Page, base: usize, name: &Name, table: &Func) -> Result<(), NoMemory>
    ensures { OnOk result (page.new ≡ page.old ++ text_of_signs (signs.named_line base name.now table.now)) }
{
    put_word(page, name.bytes(), Gap::Space)?;
    put_function(page, base, table, Gap::Line)
}
