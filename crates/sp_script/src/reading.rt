//! Reads a script.

ghost use Rattle.std.specs.Prelude.{◌≡◌, ◌≤◌, [], All, IfErr, IfOk, OnOk};
ghost use Rattle.sp_theory.specs.Points.{count_of};
ghost use Rattle.sp_model.specs.Kept.{IsDecl};
ghost use Rattle.sp_model.specs.Problem.{sizes_of};
ghost use Rattle.sp_script.specs.Ledger.{IsScriptLedger};
ghost use Rattle.sp_script.specs.Reading.{IsRefusedOn, IsTakenOn};
ghost use Rattle.sp_script.specs.Script.{IsScriptRefused, IsScript};

use crate::command::Commands;
use crate::error::{ScriptError, ScriptKind};
use crate::ledger::Ledger;
use crate::lines::{first_line, is_skipped, split_words};
use crate::request::request_of;
use sp_model::{Decl, Model};
use std::alloc::Global;

/// Takes the line of that number: enters what it asks for, unless it is skipped. `words` is what its words are kept in.
fn take_line<'a>(
    alloc: Global,
    sights: &[Decl],
    line: &'a [u8],
    number: u64,
    words: &mut Vec<&'a [u8]>,
    ledger: &mut Ledger<'a>,
) -> Result<(), ScriptError>
    requires declared { All IsDecl sights.now }
    requires few { count_of (sizes_of sights.now) ≤ 4096 }
    requires kept { IsScriptLedger ledger.old }
    ensures taken { OnOk result (IsTakenOn sights.now number line.now ledger.old.commands ledger.new.commands) }
    ensures kept { OnOk result (IsScriptLedger ledger.new) }
    ensures err { IfErr result (IsRefusedOn sights.now number line.now ledger.old.commands) }
{
    split_words(line, words)?;
    if is_skipped(words.as_slice()) {
        return Ok(());
    }
    match request_of(sights, words.as_slice()) {
        Some(request) => ledger.enter(alloc, request, number),
        None => Err(ScriptError::Fault {
            line: number,
            kind: ScriptKind::BadLine,
        }),
    }
}

/// Takes the lines of a script, one after another. `words` is what the words of a line are kept in.
fn take_lines<'a>(
    alloc: Global,
    sights: &[Decl],
    source: &'a [u8],
    words: &mut Vec<&'a [u8]>,
    ledger: &mut Ledger<'a>,
) -> Result<(), ScriptError>
    requires declared { All IsDecl sights.now }
    requires few { count_of (sizes_of sights.now) ≤ 4096 }
    requires kept { IsScriptLedger ledger.old }
    requires none { ledger.old.commands ≡ [] }
    ensures ok { OnOk result (IsScript sights.now source.now ledger.new.commands) }
    ensures err { IfErr result (IsScriptRefused sights.now source.now) }
{
    let mut rest = source;
    let mut number = 0;
    while !rest.is_empty() {
        let (line, behind) = first_line(rest);
        number += 1;
        take_line(alloc, sights, line, number, words, ledger)?;
        rest = behind;
    }
    Ok(())
}

/// The commands of a script of sessions that act on a model.
///
/// Each line is of the grammar, names sessions that are open, and observes values of the model's observation variables, or the
/// first line that doesn't is told, with the first of the kinds that hold of it. The time is linear in the source, but for the
/// looking up of names.
pub fn read_script(alloc: Global, source: &[u8], model: &Model) -> Result<Commands, ScriptError>
    ensures ok { IfOk result (IsScript model.now.sights source.now) }
    ensures err { IfErr result (IsScriptRefused model.now.sights source.now) }
{
    let sights = model.parts().sights.as_slice();
    let mut words = Vec::new(alloc);
    let mut ledger = Ledger::new(alloc);
    take_lines(alloc, sights, source, &mut words, &mut ledger)?;
    Ok(ledger.into_commands())
}
