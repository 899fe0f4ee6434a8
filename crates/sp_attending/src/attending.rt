//! A script that is served at the pauses of a run.

ghost use Rattle.std.specs.Prelude.{◌≡◌, ◌↔◌, IsTrue, OnOk};
ghost use Rattle.sp_attending.specs.Attending.{HasServedEditions, IsServedOn};

use sp_core::Book;
use sp_dd::NoMemory;
use sp_planner::BetweenTurns;
use sp_serving::Serving;

/// A script, one command of which is served at each pause, on a book that fits.
#[derive(Drop)]
pub(crate) struct Attendant {
    pub(crate) serving: Serving,
}

/// Whether it is the book of the task, and has the editions on which commands were served.
fn fits(serving: &Serving, book: &Book) -> bool
    ensures { IsTrue result ↔ HasServedEditions serving.now book.now }
{
    serving.newest() < book.count() && book.task().same(serving.task())
}

/// Serves the next command on the newest edition of a book that fits.
fn serve_at(serving: &mut Serving, book: &Book) -> Result<(), NoMemory>
    ensures { OnOk result (IsServedOn serving.old book.now serving.new) }
{
    if serving.left() == 0 {
        return Ok(());
    }
    if !fits(serving, book) {
        return Ok(());
    }
    // what is known of each book
    let _ = book.task();
    serving.serve_on(book.latest())?;
    Ok(())
}

impl BetweenTurns for Attendant {
    ghost serves = { λ before book after. IsServedOn before.serving book after.serving };

    fn serve(&mut self, book: &Book) -> Result<(), NoMemory> {
        serve_at(&mut self.serving, book)
    }
}
