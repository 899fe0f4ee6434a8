//! The ends that look.

ghost use Rattle.std.specs.Prelude.{◌≡◌, IfOk, OnErr, OnOk, Some};
ghost use Rattle.std.specs.Arc.{arc_value};
ghost use Rattle.left_right.specs.Sides.{view};
ghost use Rattle.sp_publish.specs.Published.{ListGoesOn, IsList, newest_in};
ghost use Rattle.sp_publish.specs.Snapshot.{IsOfList};

use crate::notice::Notice;
use crate::snapshot::{Sees, SnapReader};
use sp_dd::NoMemory;
use sp_value::Edition;
use std::marker::Model;
use std::sync::Arc;

/// Looks at a published list, and keeps the newest edition that it saw or learned of, at first edition 0. Contracts see what it
/// knows of the list. No call waits.
#[derive(Drop)]
pub struct Viewer {
    reader: Option<SnapReader>,
    kept: Notice,
}

impl Model for Viewer {
    ghost use Rattle.std.specs.Option.{ForSome};
    ghost use Rattle.left_right.specs.Sides.{view as view_of};
    ghost use Rattle.sp_publish.specs.Published.{PublishedList};
    ghost use Rattle.sp_publish.specs.Snapshot.{IsOfList};

    ghost Value = { PublishedList };

    ghost view = { λ v. v.kept };

    ghost invariant = { λ v. ForSome v.reader (λ r. IsOfList v.kept.list (view_of r.place)) };
}

impl Viewer {
    pub(crate) fn new(reader: SnapReader, kept: Notice) -> Viewer
        requires { view reader.place ≡ Some kept }
        ensures { result ≡ kept }
    {
        Viewer {
            reader: Some(reader),
            kept,
        }
    }

    /// Takes in a notice. From now on the viewer gives nothing older.
    pub fn learn(&mut self, told: &Notice) -> Result<(), NoMemory>
        requires { told.now.list ≡ self.old.list }
        ensures goes_on { ListGoesOn self.old self.new }
        ensures learned { OnOk result (ListGoesOn told.now self.new) }
        ensures same { OnErr result (self.new ≡ self.old) }
    {
        if self.kept.is_before(told) {
            self.kept = told.copied()?;
        }
        Ok(())
    }

    /// The newest edition that it knows of: the one that is published now, where it gets a reading, and none that is older than
    /// what it gave or learned before. What is known of a list keeps what `IsList` says.
    pub fn latest(&mut self) -> Result<Arc<Edition>, NoMemory>
        ensures goes_on { ListGoesOn self.old self.new }
        ensures newest { IfOk result (λ e. newest_in self.new ≡ Some (arc_value e)) }
        ensures known { OnOk result (IsList self.new) }
    {
        if let Some(reader) = self.reader.take() {
            self.look(reader)?;
        }
        let newest = Arc::try_clone(self.kept.edition())?;
        Ok(newest)
    }

    /// What is known of the list, as a notice. Takes no memory.
    pub fn known(&self) -> &Notice
        ensures { result.now ≡ self.now }
    {
        &self.kept
    }

    fn look(&mut self, reader: SnapReader) -> Result<(), NoMemory>
        requires { IsOfList self.old.list (view reader.place) }
        ensures { ListGoesOn self.old self.new }
    {
        match reader.enter_as::<Sees>() {
            Ok(reading) => {
                let later = self.kept.later(reading.get());
                self.reader = Some(reading.leave());
                if let Some(later) = later? {
                    self.kept = later;
                }
                Ok(())
            }
            Err(reader) => {
                self.reader = Some(reader);
                Ok(())
            }
        }
    }
}
