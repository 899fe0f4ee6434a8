//! The lines that are told on err.

ghost use Rattle.std.specs.Prelude.{◌≡◌, ◌++◌, codes, IfOk, OnOk, string_bytes};
ghost use Rattle.std.specs.Fmt.{decimal};
ghost use Rattle.sp_tool.specs.Lines.{too_long_line, refused_line, refused_script_line, not_legal_line, cannot_read_line};

use std::alloc::{AllocError, Global};

/// The line for a file that is longer than its limit.
pub fn write_too_long_line(alloc: Global, file: &str, limit: u64) -> Result<Vec<u8>, AllocError>
    ensures { IfOk result (λ line. line.items ≡ too_long_line file.now limit) }
{
    let line = format!(in alloc; "perseus: refused: {file}: longer than {limit} bytes\n")?;
    Ok(line.into_bytes())
}

/// The line for a file that isn't accepted, for what stands at this byte.
pub fn write_refused_line(
    alloc: Global,
    file: &str,
    at: u64,
    kind: &[u8],
) -> Result<Vec<u8>, AllocError>
    ensures { IfOk result (λ line. line.items ≡ refused_line file.now at kind.now) }
{
    let mut line = refused_front(alloc, file, at)?;
    push_line(&mut line, kind)?;
    Ok(line)
}

/// That line up to its kind.
fn refused_front(alloc: Global, file: &str, at: u64) -> Result<Vec<u8>, AllocError>
    ensures { IfOk result (λ line. line.items ≡ codes "perseus: refused: " ++ (file.now ++ (codes ": byte " ++ (decimal at ++ codes ": ")))) }
{
    let front = format!(in alloc; "perseus: refused: {file}: byte {at}: ")?;
    Ok(front.into_bytes())
}

/// The line for a plan file that isn't legal, for what this note tells.
pub fn write_not_legal_line(alloc: Global, file: &str, note: &[u8]) -> Result<Vec<u8>, AllocError>
    ensures { IfOk result (λ line. line.items ≡ not_legal_line file.now note.now) }
{
    let mut line = not_legal_front(alloc, file)?;
    push_line(&mut line, note)?;
    Ok(line)
}

/// That line up to its note.
fn not_legal_front(alloc: Global, file: &str) -> Result<Vec<u8>, AllocError>
    ensures { IfOk result (λ line. line.items ≡ codes "perseus: not legal: " ++ (file.now ++ codes ": ")) }
{
    let front = format!(in alloc; "perseus: not legal: {file}: ")?;
    Ok(front.into_bytes())
}

/// The line for a script that isn't accepted, for what stands on the line of this number.
pub fn write_script_line(
    alloc: Global,
    file: &str,
    number: u64,
    kind: &str,
) -> Result<Vec<u8>, AllocError>
    ensures { IfOk result (λ line. line.items ≡ refused_script_line file.now number kind.now) }
{
    let line = format!(in alloc; "perseus: refused: {file}: line {number}: {kind}\n")?;
    Ok(line.into_bytes())
}

/// Adds bytes and a line's end.
fn push_line(line: &mut Vec<u8>, bytes: &[u8]) -> Result<(), AllocError>
    ensures { OnOk result (line.new.items ≡ (line.old.items ++ bytes.now) ++ codes "\n") }
{
    line.extend_from_slice(bytes)?;
    line.extend_from_slice(b"\n")?;
    Ok(())
}

/// The line for a file that can't be read.
pub fn write_cannot_read_line(alloc: Global, file: &str) -> Result<String, AllocError>
    ensures { IfOk result (λ s. string_bytes s ≡ cannot_read_line file.now) }
{
    format!(in alloc; "perseus: cannot read {file}\n")
}
