//! Whether two parts of models are the same.

ghost use Rattle.std.specs.Prelude.{◌≡◌, ◌↔◌, IsTrue};

use crate::Func;
use crate::names::Name;
use crate::parts::{ActionPart, Decl, Factor, Parts};
use crate::sequence::Sequence;
use sp_dd::{Ids, Scope};

/// What can be compared.
pub(crate) trait Same {
    /// Whether both are the same. Takes no memory.
    fn same(&self, other: &Self) -> bool
        ensures { IsTrue result ↔ (self.now ≡ other.now) };
}

impl Same for Name {
    fn same(&self, other: &Name) -> bool {
        self.bytes() == other.bytes()
    }
}

impl Same for Ids {
    fn same(&self, other: &Ids) -> bool {
        self.as_slice() == other.as_slice()
    }
}

impl Same for Scope {
    fn same(&self, other: &Scope) -> bool {
        if self.slots() != other.slots() {
            return false;
        }
        if self.variables() != other.variables() {
            return false;
        }
        for slot in 0..self.slots() {
            if self.size(slot) != other.size(slot) {
                return false;
            }
        }
        true
    }
}

impl Same for Func {
    fn same(&self, other: &Func) -> bool {
        if !Same::same(self.scope(), other.scope()) {
            return false;
        }
        Func::same(self, other)
    }
}

impl<T: Same> Same for Sequence<T> {
    fn same(&self, other: &Sequence<T>) -> bool {
        if self.len() != other.len() {
            return false;
        }
        for place in 0..self.len() {
            if !self.at(place).same(other.at(place)) {
                return false;
            }
        }
        true
    }
}

impl Same for Decl {
    fn same(&self, other: &Decl) -> bool {
        self.name.same(&other.name) && self.values.same(&other.values)
    }
}

impl Same for Factor {
    fn same(&self, other: &Factor) -> bool {
        Same::same(&self.func, &other.func) && self.own.same(&other.own)
    }
}

impl Same for ActionPart {
    fn same(&self, other: &ActionPart) -> bool {
        self.name.same(&other.name)
            && Same::same(&self.reward, &other.reward)
            && self.moves.same(&other.moves)
            && self.sight.same(&other.sight)
    }
}

impl Same for Parts {
    fn same(&self, other: &Parts) -> bool {
        self.discount == other.discount
            && self.scope.same(&other.scope)
            && self.variables.same(&other.variables)
            && self.sights.same(&other.sights)
            && self.init.same(&other.init)
            && self.actions.same(&other.actions)
    }
}
