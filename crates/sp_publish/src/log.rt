//! The log of a published list. It exists in proofs alone, but for its length.

ghost use Rattle.std.specs.Prelude.{◌≡◌, ◌≤◌, [], None, OnOk, OnErr, false};
ghost use Rattle.sp_publish.specs.Published.{ListGoesOn, IsList, size_of};
ghost use Rattle.sp_publish.specs.Logs.{MayFollow, with_item};

use crate::item::Item;
use logbook::{Gain, Offer, Plain, Play, Rule, Seen, Start, Word};
use sp_dd::NoMemory;
use sp_value::Edition;
use std::marker::Model;
use std::sync::Arc;

/// The rule of the log.
pub struct Law;

impl Rule<Item, u64> for Law {
    ghost use Rattle.std.specs.Prelude.{[]};
    ghost use base.Fml.{ftrue};
    ghost use Rattle.sp_publish.specs.Rules.{IsKeptLog};

    ghost holds = { λ cells log. IsKeptLog cells log };

    ghost first = { [] };

    ghost hinted = { λ n log. Unit {0} };

    ghost shows = { λ log. [] };

    ghost keeps = { λ names log. ftrue };

    ghost moves = { λ ask before after answer. Unit {0} };
}

/// Those who add to the log trade nothing.
pub struct Nothing;

impl Gain<Item, u64> for Nothing {
    ghost use base.Fml.{ftrue};

    ghost after = { λ names about answer. ftrue };
}

/// A step that adds an item.
pub struct Add;

impl Play<Item, u64> for Add {
    ghost use Rattle.sp_publish.specs.Rules.{Adds};

    ghost then = { Adds };
}

impl Plain<Arc<Edition>, Item, u64> for Add {
    ghost use Rattle.std.specs.Prelude.{None};
    ghost use Rattle.std.specs.Arc.{arc_value};
    ghost use Rattle.sp_publish.specs.declared.item.Item.TheVariants.{Made};

    ghost ask = { λ edition. Made (arc_value edition) };

    ghost state = { λ edition. None };
}

/// The end mark.
#[derive(Drop)]
pub struct EndMark;

impl Plain<EndMark, Item, u64> for Add {
    ghost use Rattle.std.specs.Prelude.{None};
    ghost use Rattle.sp_publish.specs.declared.item.Item.TheVariants.{End};

    ghost ask = { λ mark. End };

    ghost state = { λ mark. None };
}

/// What is known of a list. It has no bytes.
#[derive(Drop)]
pub struct Front {
    seen: Seen<Item, u64, Law>,
}

impl Model for Front {
    ghost use Rattle.sp_publish.specs.Published.{PublishedList};
    ghost use Rattle.sp_publish.specs.Logs.{IsLegalLog, published_by};

    ghost Value = { PublishedList };

    ghost view = { λ f. published_by f.seen.book f.seen.log };

    ghost invariant = { λ f. IsLegalLog f.seen.log };
}

impl Front {
    ghost use Rattle.sp_publish.specs.Logs.{IsLegalLog, published_by};

    fn of(seen: Seen<Item, u64, Law>) -> Front
        requires { IsLegalLog seen.log }
        ensures { result ≡ published_by seen.book seen.log }
    {
        Front { seen }
    }

    fn seen(&self) -> Seen<Item, u64, Law>
        ensures told { published_by result.book result.log ≡ self.now }
        ensures legal { IsLegalLog result.log }
    {
        self.seen.again()
    }

    /// The same once more.
    pub fn again(&self) -> Front
        ensures { result ≡ self.now }
    {
        Front {
            seen: self.seen.again(),
        }
    }

    /// Shows that of two fronts of one list the shorter one begins the longer. It does nothing when it runs.
    pub fn beside(&self, other: &Front)
        requires { other.now.list ≡ self.now.list }
        ensures this { size_of self.now ≤ size_of other.now → ListGoesOn self.now other.now }
        ensures that { size_of other.now ≤ size_of self.now → ListGoesOn other.now self.now }
    {
        let mut both = self.seen.again();
        both.learn(&other.seen);
    }
}

/// The right to add to a list.
#[derive(Drop)]
pub struct Log {
    head: Word<Item, u64, Law>,
    front: Front,
    size: u64,
}

impl Model for Log {
    ghost use Rattle.std.specs.Prelude.{◌≡◌};
    ghost use Rattle.sp_publish.specs.Published.{PublishedList, size_of};
    ghost use Rattle.sp_publish.specs.Rules.{head_of};

    ghost Value = { PublishedList };

    ghost view = { λ l. l.front };

    ghost invariant = { λ l. (l.head ≡ head_of l.front.list) × (l.size ≡ size_of l.front) };
}

impl Log {
    /// An empty list, of a number of its own.
    pub fn open() -> Log
        ensures editions { result.editions ≡ [] }
        ensures ended { result.ended ≡ false }
    {
        let (seen, mut first, _second) = Seen::open(Start::alone(), 0, 0);
        Log {
            head: Word::tracked(0, &mut first),
            front: Front::of(seen),
            size: 0,
        }
    }

    /// What is known of it.
    pub fn front(&self) -> &Front
        ensures { result.now ≡ self.now }
    {
        &self.front
    }

    /// Adds an item. Want of memory also where the length of the log can't be counted in 64 bits.
    pub fn add<X, M: Plain<X, Item, u64>>(&mut self, about: &X) -> Result<(), NoMemory>
        requires plain { M.state about.now ≡ None }
        requires legal { MayFollow self.old (M.ask about.now) }
        ensures added { OnOk result (self.new ≡ with_item self.old (M.ask about.now)) }
        ensures known { OnOk result (IsList self.new) }
        ensures same { OnErr result (self.new ≡ self.old) }
    {
        let size = self.size;
        if size == u64::MAX {
            return Err(NoMemory);
        }
        let mut seen = self.front.seen();
        let mut offer: Offer<Item, u64, Law, Nothing> = seen.plain::<Nothing, X, M>(about);
        let mut pen = seen.no_pen();
        let found = self
            .head
            .compare_exchange::<Add, Nothing>(size, size + 1, &mut seen, &mut offer, &mut pen);
        if found != size {
            return Err(NoMemory);
        }
        self.front = Front::of(seen);
        self.size = size + 1;
        Ok(())
    }
}
