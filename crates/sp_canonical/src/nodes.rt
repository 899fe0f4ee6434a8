//! The lines of functions.

ghost use Rattle.std.specs.Prelude.{◌≡◌, ◌<◌, ◌+◌, ◌++◌, [], ◌∷◌, length, map, OnOk, IfOk};
ghost use Rattle.sp_spelled.specs.Signs.{text_of_signs, tight};
ghost use Rattle.sp_spelled.specs.Shapes.{group};
ghost use Rattle.sp_dd.specs.Func.{size_of};
ghost use Rattle.sp_dd.specs.Ordered.{node_at};
ghost use Rattle.sp_model.specs.Problem.{shape_of};
ghost use Rattle.sp_canonical.specs.Gaps.{gap_of};
ghost use Rattle.sp_canonical.specs.ModelSigns.{branch_signs, function_lines, function_signs, has_prime, line_count, node_line, node_signs, part_signs, slot_decl, slot_word};

use crate::page::{Gap, Page};
use crate::words::{gap_if, put_closing, put_line_name, put_reference, put_value, put_word};
use sp_dd::{NoMemory, Nodes, Part, reduced_law};
use sp_model::{Decl, Func, Name, Parts};

/// The variable of a slot.
#[tactic(auto, using(crate::proofs::SlotLemmas::behind_variables, crate::proofs::SlotLemmas::found_at))]
fn decl_of(parts: &Parts, slot: u64) -> &Decl
    requires { slot < length (shape_of parts.now).sizes }
    ensures { result.now ≡ slot_decl parts.now slot }
{
    let variables = parts.variables.len();
    if slot / 2 < variables {
        parts.variables.at(slot / 2)
    } else {
        parts.sights.at(slot - 2 * variables)
    }
}

/// Whether a slot is written with a prime.
fn has_prime(parts: &Parts, slot: u64) -> bool
    ensures { result ≡ has_prime parts.now slot }
{
    if slot / 2 < parts.variables.len() {
        slot % 2 == 1
    } else {
        true
    }
}

/// A constant, or the name of the line of a node.
fn put_part(page: &mut Page, base: usize, part: Part, gap: Gap) -> Result<(), NoMemory>
    ensures { OnOk result (page.new ≡ page.old ++ text_of_signs (part_signs base (gap_of gap) part)) }
{
    match part {
        Part::Leaf(ticks) => put_value(page, ticks, gap),
        Part::At(place) => {
            let Some(number) = base.checked_add(place) else {
                return Err(NoMemory);
            };
            put_reference(page, number, gap)
        }
    }
}

/// A branch.
#[tactic(auto, using(crate::proofs::Pieces::printed_group))]
pub fn put_branch(
    page: &mut Page,
    base: usize,
    name: &Name,
    part: Part,
    gap: Gap,
) -> Result<(), NoMemory>
    ensures { OnOk result (page.new ≡ page.old ++ text_of_signs (group name.now (part_signs base tight part) (gap_of gap))) }
{
    page.put(b"(")?;
    put_word(page, name.bytes(), Gap::Space)?;
    put_part(page, base, part, Gap::Tight)?;
    put_closing(page, gap)
}

/// The branches of a node.
fn put_branches(
    page: &mut Page,
    base: usize,
    names: &[Name],
    nodes: &Nodes,
    at: usize,
) -> Result<(), NoMemory>
    requires node { at < length nodes.now }
    requires count { length (node_at nodes.now at).parts ≡ length names.now }
    ensures { OnOk result (page.new ≡ page.old ++ text_of_signs (branch_signs names.now (map (part_signs base tight) (node_at nodes.now at).parts))) }
{
    for i in 0..names.len() {
        let part = nodes.part(at, i as u64);
        put_branch(page, base, &names[i], part, gap_if(i + 1 < names.len()))?;
    }
    Ok(())
}

/// The name of a slot's variable, with a prime or without one.
#[tactic(auto, using(crate::proofs::Pieces::printed_word, crate::proofs::Pieces::printed_primed))]
fn put_slot(page: &mut Page, name: &[u8], is_primed: bool) -> Result<(), NoMemory>
    ensures { OnOk result (page.new ≡ page.old ++ text_of_signs (slot_word is_primed name.now ∷ [])) }
{
    page.put(name)?;
    if is_primed {
        page.put(b"' ")
    } else {
        page.put(b" ")
    }
}

/// A node.
#[tactic(auto, using(crate::proofs::Pieces::printed_node, crate::proofs::SlotLemmas::size_of_slot))]
fn put_node(
    page: &mut Page,
    parts: &Parts,
    base: usize,
    nodes: &Nodes,
    at: usize,
) -> Result<(), NoMemory>
    requires node { at < length nodes.now }
    requires slot { (node_at nodes.now at).slot < length (shape_of parts.now).sizes }
    requires count { length (node_at nodes.now at).parts ≡ size_of (shape_of parts.now) (node_at nodes.now at).slot }
    ensures { OnOk result (page.new ≡ page.old ++ text_of_signs (node_signs parts.now base (node_at nodes.now at))) }
{
    let slot = nodes.slot(at);
    let decl = decl_of(parts, slot);
    page.put(b"(")?;
    put_slot(page, decl.name.bytes(), has_prime(parts, slot))?;
    put_branches(page, base, decl.values.as_slice(), nodes, at)?;
    put_closing(page, Gap::Space)
}

/// The line of a node.
#[tactic(auto, using(crate::proofs::Pieces::printed_line))]
fn put_line(
    page: &mut Page,
    parts: &Parts,
    base: usize,
    nodes: &Nodes,
    at: usize,
) -> Result<(), NoMemory>
    requires node { at < length nodes.now }
    requires slot { (node_at nodes.now at).slot < length (shape_of parts.now).sizes }
    requires count { length (node_at nodes.now at).parts ≡ size_of (shape_of parts.now) (node_at nodes.now at).slot }
    ensures { OnOk result (page.new ≡ page.old ++ text_of_signs (node_line parts.now base at (node_at nodes.now at))) }
{
    let Some(number) = base.checked_add(at) else {
        return Err(NoMemory);
    };
    page.put(b"dd ")?;
    put_line_name(page, number)?;
    page.put(b" ")?;
    put_node(page, parts, base, nodes, at)?;
    page.put(b"enddd\n")
}

/// The lines of a function, the first of which has that number.
pub fn put_lines(page: &mut Page, parts: &Parts, base: usize, func: &Func) -> Result<(), NoMemory>
    requires { func.now.shape ≡ shape_of parts.now }
    ensures { OnOk result (page.new ≡ page.old ++ text_of_signs (function_lines parts.now base func.now)) }
{
    reduced_law(func);
    let nodes = func.nodes();
    for at in 0..nodes.len() {
        put_line(page, parts, base, nodes, at)?;
    }
    Ok(())
}

/// A function where it is used.
pub fn put_function(page: &mut Page, base: usize, func: &Func, gap: Gap) -> Result<(), NoMemory>
    ensures { OnOk result (page.new ≡ page.old ++ text_of_signs (function_signs base (gap_of gap) func.now)) }
{
    put_part(page, base, func.root(), gap)
}

/// The number of the line behind those of a function.
pub fn line_behind(base: usize, func: &Func) -> Result<usize, NoMemory>
    ensures { IfOk result (λ next. next ≡ base + line_count func.now) }
{
    let Some(number) = base.checked_add(func.nodes().len()) else {
        return Err(NoMemory);
    };
    Ok(number)
}
