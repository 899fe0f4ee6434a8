//! The lines of logs by themselves.

ghost use Rattle.std.specs.Prelude.{◌≡◌, IfOk};
ghost use Rattle.sp_session.specs.Logs.{logs_of};
ghost use Rattle.sp_planfile.specs.PlanText as texts;

use crate::logs::put_logs;
use sp_dd::NoMemory;
use sp_lines::put;
use sp_session::Transcript;
use std::alloc::Global;

/// The lines of a plan file from `sessions` to `done`, for these logs.
pub fn sessions_text(alloc: Global, transcript: &Transcript) -> Result<Vec<u8>, NoMemory>
    ensures { IfOk result (λ text. text.items ≡ texts.sessions_text (logs_of transcript.now)) }
{
    let mut text = Vec::new(alloc);
    put_logs(&mut text, transcript.as_slice())?;
    put(&mut text, b"done\n")?;
    Ok(text)
}
