//! The top call on one thread.

ghost use Rattle.std.specs.Prelude.{◌≡◌, ℕ, List, [], ◌∷◌, map, string_bytes, IfOk, IfErr};
ghost use Rattle.sp_outside.specs.Folder.{Folder, IsLaterFolder};
ghost use Rattle.sp_choose.specs.Machines.{uniform, sweep};
ghost use Rattle.sp_words.specs.declared.job.Job.{Job};
ghost use Rattle.sp_words.specs.Jobs.{Asks};
ghost use Rattle.sp_tool.specs.Table.{Answers, Call, IsPlain, IsTextFor};
ghost use Rattle.sp_tool.specs.Faults.{IsExplained, Hinders};

use crate::fault::Fault;
use crate::jobs::text_for;
use crate::status::Status;
use sp_choose::Chooser;
use sp_outside::{Sink, Store};
use sp_words::{WordsError, read_words};
use std::alloc::Global;

/// Runs one command that asks for no further threads: judges its words, reads its files from `store`, and writes its text to `out`,
/// or else one line to `err`. Always returns.
///
/// `choosers` are the two ways to choose the actions of sampled beliefs, at random and in turn; the words pick one, and both
/// are dropped.
pub fn run_plain<S: Store, K: Sink, E: Sink>(
    alloc: Global,
    words: &[String],
    choosers: Vec<Box<dyn Chooser + Send>>,
    store: &mut S,
    out: &mut K,
    err: &mut E,
) -> Status
    requires plain { (job : Job) → Asks (map string_bytes words.now) job → IsPlain job }
    requires choosers { map (λ b. machine b) choosers.items ≡ uniform ∷ sweep 0 ∷ [] }
    ensures { let call : Call = record {
      words = map string_bytes words.now;
      store = S.folder store.old;
      later = S.folder store.new;
      out = K.written out.old;
      end = K.written out.new;
    } in Answers call (E.written err.old) (E.written err.new) result }
{
    let done = work(alloc, words, choosers, store, out);
    ended(done, err)
}

/// Judges the words, does the work and writes its text.
fn work<S: Store, K: Sink>(
    alloc: Global,
    words: &[String],
    choosers: Vec<Box<dyn Chooser + Send>>,
    store: &mut S,
    out: &mut K,
) -> Result<(), Fault>
    requires plain { (job : Job) → Asks (map string_bytes words.now) job → IsPlain job }
    requires choosers { map (λ b. machine b) choosers.items ≡ uniform ∷ sweep 0 ∷ [] }
    ensures cause { let call : Call = record {
      words = map string_bytes words.now;
      store = S.folder store.old;
      later = S.folder store.new;
      out = K.written out.old;
      end = K.written out.new;
    } in IsExplained call result }
    ensures later { IsLaterFolder (S.folder store.old) (S.folder store.new) }
{
    let job = match read_words(alloc, words) {
        Ok(job) => job,
        Err(WordsError::Usage) => return Err(Fault::Usage),
        Err(WordsError::NoMemory) => return Err(Fault::NoMemory),
    };
    let text = text_for(alloc, store, &job, choosers);
    written(text, out)
}

/// Writes the text of a job, if it has one.
pub fn written<K: Sink>(text: Result<Vec<u8>, Fault>, out: &mut K) -> Result<(), Fault>
    ensures { (words : List (List ℕ)) (job : Job) (store later : Folder) → Asks words job
        → IfOk text (λ t. IsTextFor store job t.items) → IfErr text (λ f. Hinders job store later f)
        → IsExplained (record { words = words; store = store; later = later; out = K.written out.old; end = K.written out.new }) result }
{
    let text = match text {
        Ok(text) => text,
        Err(fault) => return Err(fault),
    };
    match sp_outside::write_whole(out, text.as_slice()) {
        Ok(()) => Ok(()),
        Err(_) => Err(Fault::WriteFault),
    }
}

/// The status of a call that is done, or that isn't, whose line is told then.
pub fn ended<E: Sink>(done: Result<(), Fault>, err: &mut E) -> Status
    ensures { (call : Call) → IsExplained call done → IsLaterFolder call.store call.later → Answers call (E.written err.old) (E.written err.new) result }
{
    match done {
        Ok(()) => Status::Done,
        Err(fault) => {
            let _ = sp_outside::write_whole(err, fault.line());
            fault.status()
        }
    }
}
