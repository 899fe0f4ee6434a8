//! Runs one operation on diagrams so many times, for measurements from outside: `sp_bench OPERATION DEPTH TIMES`.
//!
//! The operands are whole trees of two-valued slots of that depth with drawn leaves, the worst case. Without words nothing is done.
#![tactic(auto)]

use sp_dd::{Diagram, Ids, NoMemory, Scope};
use sp_ddops::{add, below, branch, constant, dot, leaf_by, mul_floor, sum_out, weigh_out};
use sp_yardstick::diagrams::{
    are_of, are_weights, has_same_scope, has_slot, is_on_unprimed, is_row, is_within,
};
use sp_yardstick::scopes::is_shape;
use std::alloc::Global;
use std::process::ExitCode;
use std::{env, io};

/// What is measured.
#[derive(Clone, Copy)]
enum Operation {
    Add,
    Mul,
    Weigh,
    Sum,
    Copy,
    Dot,
    Below,
}

/// How far from 0 leaves may be.
const BOUND: u128 = 1 << 60;

/// The operation of a word.
fn operation_of(word: &str) -> Option<Operation> {
    match word {
        "add" => Some(Operation::Add),
        "mul" => Some(Operation::Mul),
        "weigh" => Some(Operation::Weigh),
        "sum" => Some(Operation::Sum),
        "copy" => Some(Operation::Copy),
        "dot" => Some(Operation::Dot),
        "below" => Some(Operation::Below),
        _ => None,
    }
}

/// The next drawn number.
fn next(seed: u64) -> u64 {
    seed.wrapping_mul(6364136223846793005)
        .wrapping_add(1442695040888963407)
}

/// A drawn leaf.
fn leaf(seed: u64) -> i128 {
    ((seed >> 33) % 1000000007) as i128
}

/// So many state variables of two values.
fn scope_of(alloc: Global, variables: u64) -> Result<Option<Scope>, NoMemory> {
    let mut sizes = Ids::new(alloc);
    let count = variables.min(28);
    for _ in 0..count {
        sizes.push(2)?;
        sizes.push(2)?;
    }
    if !is_shape(&sizes, count) {
        return Ok(None);
    }
    Ok(Some(Scope::new(sizes, count)))
}

/// A whole tree of drawn leaves over the unprimed slots from `slot` on.
fn tree(
    alloc: Global,
    scope: &Scope,
    slot: u64,
    depth: u64,
    seed: u64,
) -> Result<Diagram, NoMemory> {
    if slot >= scope.slots() || depth == 0 {
        let made = constant(alloc, scope, leaf(seed))?;
        return Ok(made);
    }
    let behind = slot.saturating_add(2);
    let left = tree(alloc, scope, behind, depth - 1, next(seed ^ 1))?;
    let right = tree(alloc, scope, behind, depth - 1, next(seed ^ 2))?;
    let mut parts = Vec::new(alloc);
    parts.push(left).map_err(|_| NoMemory)?;
    parts.push(right).map_err(|_| NoMemory)?;
    if scope.size(slot) != 2 || !are_of(scope, parts.as_slice()) {
        let made = constant(alloc, scope, leaf(seed))?;
        return Ok(made);
    }
    let made = branch(alloc, scope, slot, parts.as_slice())?;
    Ok(made)
}

/// A row of the first slot.
fn row(alloc: Global, scope: &Scope) -> Result<Diagram, NoMemory> {
    if scope.slots() == 0 || scope.size(0) != 2 {
        let made = constant(alloc, scope, 0)?;
        return Ok(made);
    }
    let leaves: [i128; 2] = [300_000_000, 700_000_000];
    let made = leaf_by(alloc, scope, 0, &leaves)?;
    Ok(made)
}

/// Sums of two trees.
fn add_often(alloc: Global, f: &Diagram, g: &Diagram, times: u64) -> Result<(), NoMemory> {
    if !has_same_scope(f, g) || !is_within(f, BOUND) || !is_within(g, BOUND) {
        return Ok(());
    }
    for _ in 0..times {
        let _ = add(alloc, f, g)?;
    }
    Ok(())
}

/// Products of two trees.
fn multiply_often(alloc: Global, f: &Diagram, g: &Diagram, times: u64) -> Result<(), NoMemory> {
    if !has_same_scope(f, g) || !is_within(f, BOUND) || !is_within(g, BOUND) {
        return Ok(());
    }
    for _ in 0..times {
        let _ = mul_floor(alloc, f, g)?;
    }
    Ok(())
}

/// Means over the first slot.
fn weigh_often(alloc: Global, f: &Diagram, p: &Diagram, times: u64) -> Result<(), NoMemory> {
    if !has_same_scope(f, p) || !is_within(f, BOUND) || !has_slot(f, 0) || !has_slot(p, 0) {
        return Ok(());
    }
    if !is_row(alloc, p, 0)? {
        return Ok(());
    }
    for _ in 0..times {
        let _ = weigh_out(alloc, f, 0, p)?;
    }
    Ok(())
}

/// Sums over the first slot.
fn sum_often(alloc: Global, f: &Diagram, times: u64) -> Result<(), NoMemory> {
    if !is_within(f, BOUND) || !has_slot(f, 0) {
        return Ok(());
    }
    for _ in 0..times {
        let _ = sum_out(alloc, f, 0)?;
    }
    Ok(())
}

/// Copies.
fn copy_often(alloc: Global, f: &Diagram, times: u64) -> Result<(), NoMemory> {
    for _ in 0..times {
        let _ = f.copied(alloc)?;
    }
    Ok(())
}

/// Sums over all states of the product of two trees.
fn dot_often(alloc: Global, f: &Diagram, g: &Diagram, times: u64) -> Result<(), NoMemory> {
    if !has_same_scope(f, g) || !is_on_unprimed(f) || !is_on_unprimed(g) {
        return Ok(());
    }
    if !are_weights(f) || !is_within(g, BOUND) {
        return Ok(());
    }
    for _ in 0..times {
        let _ = dot(alloc, f, g)?;
    }
    Ok(())
}

/// Comparisons of a tree with itself, which go through all of it.
fn compare_often(alloc: Global, f: &Diagram, times: u64) -> Result<(), NoMemory> {
    for _ in 0..times {
        let _ = below(alloc, f, f)?;
    }
    Ok(())
}

/// Makes an operation so many times, where it can be made of the operands.
fn repeated(alloc: Global, operation: Operation, depth: u64, times: u64) -> Result<(), NoMemory> {
    let Some(scope) = scope_of(alloc, depth)? else {
        return Ok(());
    };
    let f = tree(alloc, &scope, 0, depth, 1)?;
    let g = tree(alloc, &scope, 0, depth, 2)?;
    let p = row(alloc, &scope)?;
    match operation {
        Operation::Add => add_often(alloc, &f, &g, times),
        Operation::Mul => multiply_often(alloc, &f, &g, times),
        Operation::Weigh => weigh_often(alloc, &f, &p, times),
        Operation::Sum => sum_often(alloc, &f, times),
        Operation::Copy => copy_often(alloc, &f, times),
        Operation::Dot => dot_often(alloc, &f, &g, times),
        Operation::Below => compare_often(alloc, &f, times),
    }
}

/// The number of a word, or 0.
fn number(word: &str) -> u64 {
    word.parse::<u64>().unwrap_or(0)
}

/// Does what the words ask for.
fn run(alloc: Global, words: &[String]) -> Result<(), NoMemory> {
    if words.len() < 3 {
        return Ok(());
    }
    let Some(operation) = operation_of(words[0].as_str()) else {
        return Ok(());
    };
    repeated(
        alloc,
        operation,
        number(words[1].as_str()),
        number(words[2].as_str()),
    )
}

/// The words behind the program's name.
fn words(rt: &HostRuntime) -> io::Result<Vec<String>> {
    Ok(env::args(rt)?.skip(1).collect(rt.alloc())?)
}

fn main(rt: HostRuntime) -> ExitCode {
    let alloc = rt.alloc();
    match words(&rt) {
        Ok(words) => match run(alloc, words.as_slice()) {
            Ok(()) => ExitCode::SUCCESS,
            Err(NoMemory) => ExitCode::FAILURE,
        },
        Err(_) => ExitCode::FAILURE,
    }
}
