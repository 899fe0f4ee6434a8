//! The lines of the initial belief.

ghost use Rattle.std.specs.Prelude.{◌≡◌, ◌<◌, ◌≤◌, ◌++◌, length, map, pos, All, OnOk, IfOk};
ghost use Rattle.sp_spelled.specs.Signs.{text_of_signs, tight};
ghost use Rattle.sp_spelled.specs.Shapes.{leaf};
ghost use Rattle.sp_show.specs.Decimals.{decimal_of};
ghost use Rattle.sp_model.specs.Problem.{shape_of};
ghost use Rattle.sp_model.specs.Kept.{IsModel, IsFactor};
ghost use Rattle.sp_canonical.specs.Gaps.{gap_of};
ghost use Rattle.sp_canonical.specs.Tables.{free_variables, is_on};
ghost use Rattle.sp_canonical.specs.ModelSigns.{branch_signs, factor_tables, factors_signs, functions_lines, init_signs, lines_total, summed_signs, zero_node, zeros_signs};

use crate::nodes::{line_behind, put_branch, put_function, put_lines};
use crate::page::{Gap, Page};
use crate::words::{gap_if, put_closing, put_word};
use sp_dd::{NoMemory, Nodes, Part};
use sp_model::{Decl, Factor, Func, Name, Parts};
use std::alloc::Global;

/// The lines of the initial belief. Answers how many lines its functions have.
#[tactic(auto, using(crate::proofs::Pieces::printed_init))]
pub fn put_init(alloc: Global, page: &mut Page, parts: &Parts) -> Result<usize, NoMemory>
    requires { IsModel parts.now }
    ensures text { OnOk result (page.new ≡ page.old ++ text_of_signs (init_signs parts.now parts.now.init)) }
    ensures count { IfOk result (λ n. n ≡ lines_total (factor_tables parts.now.init)) }
{
    let factors = parts.init.as_slice();
    let count = put_factor_lines(page, parts, factors)?;
    page.put(b"init [* ")?;
    put_factors(alloc, page, parts, factors)?;
    page.put(b"]\n")?;
    Ok(count)
}

/// The lines of the factors' functions. Answers how many there are.
fn put_factor_lines(page: &mut Page, parts: &Parts, factors: &[Factor]) -> Result<usize, NoMemory>
    requires { All (IsFactor (shape_of parts.now)) factors.now }
    ensures text { OnOk result (page.new ≡ page.old ++ text_of_signs (functions_lines parts.now 0 (factor_tables factors.now))) }
    ensures count { IfOk result (λ n. n ≡ lines_total (factor_tables factors.now)) }
{
    let mut base = 0;
    for i in 0..factors.len() {
        let func = &factors[i].func;
        put_lines(page, parts, base, func)?;
        base = line_behind(base, func)?;
    }
    Ok(base)
}

/// The factors, whose functions have lines from 0 on.
fn put_factors(
    alloc: Global,
    page: &mut Page,
    parts: &Parts,
    factors: &[Factor],
) -> Result<(), NoMemory>
    requires factors { All (IsFactor (shape_of parts.now)) factors.now }
    requires few { length parts.now.variables ≤ 24 }
    ensures { OnOk result (page.new ≡ page.old ++ text_of_signs (factors_signs parts.now 0 factors.now)) }
{
    let mut base = 0;
    for i in 0..factors.len() {
        let factor = &factors[i];
        put_factor(
            alloc,
            page,
            parts,
            base,
            factor,
            gap_if(i + 1 < factors.len()),
        )?;
        base = line_behind(base, &factor.func)?;
    }
    Ok(())
}

/// A factor.
fn put_factor(
    alloc: Global,
    page: &mut Page,
    parts: &Parts,
    base: usize,
    factor: &Factor,
    gap: Gap,
) -> Result<(), NoMemory>
    requires within { All (λ i. i < length parts.now.variables) factor.now.own }
    requires few { length parts.now.variables ≤ 24 }
    ensures { OnOk result (page.new ≡ page.old ++ text_of_signs (summed_signs parts.now base (gap_of gap) factor.now.func (free_variables factor.now))) }
{
    let free = free_variables(alloc, factor)?;
    put_summed(page, parts, base, &factor.func, free.as_slice(), gap)
}

/// A function, and a zero node for each of these variables.
#[tactic(auto, using(crate::proofs::Pieces::printed_alone, crate::proofs::Pieces::printed_sum))]
fn put_summed(
    page: &mut Page,
    parts: &Parts,
    base: usize,
    func: &Func,
    free: &[u64],
    gap: Gap,
) -> Result<(), NoMemory>
    requires { All (λ i. i < length parts.now.variables) free.now }
    ensures { OnOk result (page.new ≡ page.old ++ text_of_signs (summed_signs parts.now base (gap_of gap) func.now free.now)) }
{
    if free.is_empty() {
        return put_function(page, base, func, gap);
    }
    page.put(b"[+ ")?;
    put_function(page, base, func, Gap::Space)?;
    put_zeros(page, parts, free)?;
    page.put(b"]")?;
    page.put(gap.bytes())
}

/// The own variables of a factor on which its function doesn't depend.
fn free_variables(alloc: Global, factor: &Factor) -> Result<Vec<u64>, NoMemory>
    requires { All (λ i. i < 24) factor.now.own }
    ensures { IfOk result (λ free. free.items ≡ free_variables factor.now) }
{
    let nodes = factor.func.nodes();
    let own = factor.own.as_slice();
    let mut free = Vec::new(alloc);
    for i in 0..own.len() {
        if !is_on(nodes, 2 * own[i]) {
            free.push(own[i]).map_err(|_| NoMemory)?;
        }
    }
    Ok(free)
}

/// Whether a node has that slot.
fn is_on(nodes: &Nodes, slot: u64) -> bool
    ensures { result ≡ is_on nodes.now slot }
{
    for i in 0..nodes.len() {
        if nodes.slot(i) == slot {
            return true;
        }
    }
    false
}

/// A zero node for each of these variables.
fn put_zeros(page: &mut Page, parts: &Parts, variables: &[u64]) -> Result<(), NoMemory>
    requires { All (λ i. i < length parts.now.variables) variables.now }
    ensures { OnOk result (page.new ≡ page.old ++ text_of_signs (zeros_signs parts.now variables.now)) }
{
    for i in 0..variables.len() {
        let decl = parts.variables.at(variables[i]);
        put_zero(page, decl, gap_if(i + 1 < variables.len()))?;
    }
    Ok(())
}

/// A node that has zero for each value of a variable.
#[tactic(auto, using(crate::proofs::Pieces::printed_group))]
fn put_zero(page: &mut Page, decl: &Decl, gap: Gap) -> Result<(), NoMemory>
    ensures { OnOk result (page.new ≡ page.old ++ text_of_signs (zero_node (gap_of gap) decl.now)) }
{
    page.put(b"(")?;
    put_word(page, decl.name.bytes(), Gap::Space)?;
    put_zero_branches(page, decl.values.as_slice())?;
    put_closing(page, gap)
}

/// Zero for each of these values.
fn put_zero_branches(page: &mut Page, names: &[Name]) -> Result<(), NoMemory>
    ensures { OnOk result (page.new ≡ page.old ++ text_of_signs (branch_signs names.now (map (λ x. leaf (decimal_of (pos 0)) tight) names.now))) }
{
    for i in 0..names.len() {
        put_branch(
            page,
            0,
            &names[i],
            Part::Leaf(0),
            gap_if(i + 1 < names.len()),
        )?;
    }
    Ok(())
}
