//! The lines of the files.
//!
//! A line that begins with `#` is a remark. Some lines make a function, which has the next number, from 0 on in each scope; K and L are
//! such numbers. State variable `i` has slot `2i` for its value now and slot `2i + 1` for its next value; observations have the slots
//! behind those. Other lines ask for something, which is printed behind the line itself:
//!
//! | Line | What it does |
//! |---|---|
//! | `scope VARIABLES SIZE ..` | begins a scope with so many state variables, and slots of these sizes; there are no functions yet |
//! | `keep K` | lets go of all functions but a copy of this one, which is function 0 from now on |
//! | `constant V` | makes the function that is V everywhere |
//! | `row SLOT V ..` | makes the function of the slot with a value for each of its values |
//! | `function COUNT SLOT .. V ..` | makes the function of so many slots, in order, with a value for each of their points |
//! | `branch SLOT K` | makes the function that is K where the slot has its first value, the function behind K where it has its second, and so on |
//! | `add K L`, `mul_floor K L`, `mul_whole K L` | make the sum, the product rounded down, and the product that is whole |
//! | `weigh_out K L SLOT` | makes the mean of K over the slot's values by the weights of L, rounded down |
//! | `times K V`, `max_with K V`, `sum_out K SLOT`, `restrict K SLOT VALUE` | make V times K, the larger of K and V, K's sum over the slot's values, K where the slot has that value |
//! | `diagonal K SLOT` | makes K where the slot, which is primed, has the value of the slot before it |
//! | `prime K`, `unprime K`, `copy K` | make K of the next values in place of those now, of those now in place of the next ones, K once more |
//! | `values K` | its values at all points, in slot order |
//! | `at K COORDINATE ..` | its value at a point |
//! | `depends K` | the slots on which it depends |
//! | `least K`, `greatest K`, `nodes K` | its least value, its greatest value, how many nodes it has |
//! | `first_apart K V`, `below K L` | the first point at which it isn't V, at which it is more than L, or `none` |
//! | `dot K L` | the sum over the states of K times L |
//! | `same K L`, `is_whole K L` | whether they are one function, whether `mul_whole` has an answer |

use crate::function::Function;
use crate::making::{branched, given, made_of, made_of_two};
use crate::numbers::{index_at, numbers_of};
use crate::points::scope_of;
use crate::stopped::Stopped;
use crate::telling::{push_of, push_of_two};
use sp_dd::Scope;
use std::alloc::Global;

/// The scope that was begun last, its functions, and what is to be printed.
#[derive(Drop)]
pub struct Desk<F> {
    alloc: Global,
    scope: Scope,
    functions: Vec<F>,
    told: String,
}

/// What a line does with functions.
#[derive(Clone, Copy)]
enum Kind {
    Given,
    Of,
    OfTwo,
    Told,
    ToldOfTwo,
}

/// What a line of this kind does with functions.
fn kind_of(kind: &str) -> Kind {
    match kind {
        "constant" | "row" | "function" => Kind::Given,
        "add" | "mul_floor" | "mul_whole" | "weigh_out" => Kind::OfTwo,
        "values" | "at" | "depends" | "least" | "greatest" | "nodes" | "first_apart" => Kind::Told,
        "below" | "dot" | "same" | "is_whole" => Kind::ToldOfTwo,
        _ => Kind::Of,
    }
}

/// The function of the number at a place.
fn function_at<'a, F>(
    functions: &'a [F],
    numbers: &[i128],
    place: usize,
) -> Result<&'a F, Stopped> {
    functions
        .get(index_at(numbers, place)? as usize)
        .ok_or(Stopped)
}

impl<F: Function> Desk<F> {
    /// Nothing was read yet: the scope has no slots.
    pub fn new(alloc: Global) -> Result<Desk<F>, Stopped> {
        Ok(Desk {
            alloc,
            scope: scope_of(alloc, &[0])?,
            functions: Vec::new(alloc),
            told: String::new(alloc),
        })
    }

    /// What the lines asked for.
    pub fn into_told(self) -> String {
        self.told
    }

    /// Takes the next line.
    pub fn take_line(&mut self, line: &str) -> Result<(), Stopped> {
        if line.is_empty() || line.starts_with('#') {
            return Ok(());
        }
        let (kind, rest) = line.split_once(' ').unwrap_or((line, ""));
        let numbers = numbers_of(self.alloc, rest)?;
        match kind {
            "scope" => self.begin(line, numbers.as_slice()),
            "keep" => self.keep(index_at(numbers.as_slice(), 0)?),
            _ => self.take(line, kind, numbers.as_slice()),
        }
    }

    /// Begins a scope.
    fn begin(&mut self, line: &str, numbers: &[i128]) -> Result<(), Stopped> {
        self.scope = scope_of(self.alloc, numbers)?;
        self.functions.clear();
        Ok(writeln!(&mut self.told, "{line}")?)
    }

    /// Lets go of all functions but a copy of one.
    fn keep(&mut self, number: u64) -> Result<(), Stopped> {
        let f = self.functions.get(number as usize).ok_or(Stopped)?;
        let kept = F::copied(self.alloc, f)?;
        self.functions.clear();
        Ok(self.functions.push(kept)?)
    }

    /// Makes a function, or tells what is asked of functions.
    fn take(&mut self, line: &str, kind: &str, numbers: &[i128]) -> Result<(), Stopped> {
        match kind_of(kind) {
            Kind::Told | Kind::ToldOfTwo => {
                write!(&mut self.told, "{line}:")?;
                self.tell(kind, numbers)
            }
            _ => {
                let made = self.made(kind, numbers)?;
                Ok(self.functions.push(made)?)
            }
        }
    }

    /// The function that a line makes.
    fn made(&self, kind: &str, numbers: &[i128]) -> Result<F, Stopped> {
        let functions = self.functions.as_slice();
        match kind_of(kind) {
            Kind::Given => given(self.alloc, &self.scope, kind, numbers),
            Kind::OfTwo => {
                let f = function_at(functions, numbers, 0)?;
                let g = function_at(functions, numbers, 1)?;
                made_of_two(self.alloc, kind, f, g, numbers)
            }
            _ if kind == "branch" => {
                let slot = index_at(numbers, 0)?;
                branched(
                    self.alloc,
                    &self.scope,
                    slot,
                    functions,
                    index_at(numbers, 1)?,
                )
            }
            _ => made_of(
                self.alloc,
                kind,
                function_at(functions, numbers, 0)?,
                numbers,
            ),
        }
    }

    /// Tells what a line asks of one function or two.
    fn tell(&mut self, kind: &str, numbers: &[i128]) -> Result<(), Stopped> {
        let functions = self.functions.as_slice();
        let f = function_at(functions, numbers, 0)?;
        match kind_of(kind) {
            Kind::ToldOfTwo => {
                let g = function_at(functions, numbers, 1)?;
                push_of_two(&mut self.told, self.alloc, kind, f, g)
            }
            _ => push_of(&mut self.told, self.alloc, &self.scope, kind, f, numbers),
        }
    }
}
