//! What a tree may name.

ghost use Rattle.std.specs.Prelude.{◌≡◌, ◌++◌, [], ◌∷◌, None, IfOk, OnOk, OnErr};
ghost use Rattle.std.specs.Option.{option_copied};
ghost use Rattle.sp_trees.specs.Dds.{dd_of_name};

use crate::slots::Slots;
use indexmap::IndexMap;
use sp_dd::{NoMemory, Scope};
use sp_model::{Decls, Func};
use std::alloc::Global;
use std::marker::Model;
use std::sync::Arc;

/// A function that many may hold. Contracts see it as the function.
#[derive(Drop)]
pub struct Shared {
    held: Arc<Func>,
}

impl Model for Shared {
    ghost use Rattle.sp_dd.specs.Func.{Func};

    ghost Value = { Func };

    ghost view = { λ s. s.held.value };
}

impl Shared {
    /// A function that may be held again.
    pub fn new(alloc: Global, func: Func) -> Result<Shared, NoMemory>
        ensures { IfOk result (λ s. s ≡ func) }
    {
        let held = Arc::new(alloc, func).map_err(|_| NoMemory)?;
        Ok(Shared { held })
    }

    /// The same function, held once more; nothing is copied.
    pub fn again(&self) -> Result<Shared, NoMemory>
        ensures { IfOk result (λ s. s ≡ self.now) }
    {
        let held = Arc::try_clone(&self.held)?;
        Ok(Shared { held })
    }

    /// The function. Takes no memory.
    pub fn func(&self) -> &Func
        ensures { result.now ≡ self.now }
    {
        &self.held
    }

    /// The function as one's own; it is copied only where it is held elsewhere too.
    pub fn into_func(self, alloc: Global) -> Result<Func, NoMemory>
        ensures { IfOk result (λ f. f ≡ self) }
    {
        match Arc::try_unwrap(self.held) {
            Ok(func) => Ok(func),
            Err(held) => held.copied(alloc),
        }
    }
}

/// A declared dd: the slots that its tree mentions, and its function.
#[derive(Drop)]
pub struct Dd {
    pub mentions: Slots,
    pub func: Shared,
}

/// The dds that are declared so far, by name. Contracts see the list of their names and meanings in the order of their declarations.
#[derive(Drop)]
pub struct Dds<'a> {
    by_name: IndexMap<&'a [u8], Dd>,
}

impl<'a> Model for Dds<'a> {
    ghost use Rattle.std.specs.Prelude.{List, ℕ};
    ghost use Rattle.sp_trees.specs.declared.env.Dd.{Dd};
    ghost use Rattle.sp_trees.specs.Dds.{dds_by_name};

    ghost Value = { List (List ℕ × Dd) };

    ghost view = { λ d. dds_by_name d.by_name.entries };
}

impl<'a> Dds<'a> {
    /// No dd; it takes its memory from `alloc` as it grows.
    pub fn new(alloc: Global) -> Dds<'a>
        ensures { result ≡ [] }
    {
        Dds {
            by_name: IndexMap::new(alloc),
        }
    }

    /// The dd of a name. Takes no memory.
    pub fn find(&self, name: &[u8]) -> Option<&Dd>
        ensures { option_copied result ≡ dd_of_name name.now self.now }
    {
        self.by_name.get(name)
    }

    /// Declares a dd under a name that isn't declared.
    pub fn declare(&mut self, name: &'a [u8], dd: Dd) -> Result<(), NoMemory>
        requires { dd_of_name name.now self.old ≡ None }
        ensures ok { OnOk result (self.new ≡ self.old ++ (name.now, dd) ∷ []) }
        ensures err { OnErr result (self.new ≡ self.old) }
    {
        match self.by_name.insert(name, dd) {
            Ok(_) => Ok(()),
            Err(_) => Err(NoMemory),
        }
    }
}

/// What the trees of a text may name.
#[derive(Drop)]
pub struct Env<'a> {
    pub scope: Scope,
    pub variables: Decls,
    /// The observation variables.
    pub sights: Decls,
    pub dds: Dds<'a>,
}
