//! What is done between the turns of a planning run.

ghost use Rattle.std.specs.Prelude.{OnOk};
ghost use Rattle.sp_core.specs.Books.{BookParts};

use sp_core::Book;
use sp_dd::NoMemory;

/// Work that is served while a book is planned.
pub trait BetweenTurns {
    /// What a call does: the work before it, the book, and the work after it.
    ghost serves: { Self → BookParts → Self → Type 0 };

    /// Serves what comes next, on the book as it stands.
    fn serve(&mut self, book: &Book) -> Result<(), NoMemory>
        ensures { OnOk result (serves self.old book.now self.new) };
}

/// No work.
#[derive(Clone, Copy, Debug, Drop)]
pub struct Idle;

impl BetweenTurns for Idle {
    ghost serves = { λ before book after. Unit {0} };

    fn serve(&mut self, _book: &Book) -> Result<(), NoMemory> {
        Ok(())
    }
}
