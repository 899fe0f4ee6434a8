//! Named content that is read.

ghost use Rattle.std.specs.Prelude.{◌≡◌, ◌≢◌, ℕ, ◌+◌, ◌<◌, ◌≤◌, length, vec_len, IfOk};
ghost use Rattle.sp_outside.specs.Bytes.{IfTold, IsFront, ReadsBytes};
ghost use Rattle.sp_outside.specs.Counts.{HasCause, Rose};
ghost use Rattle.sp_outside.specs.Folder.{Folder, IsLaterFolder};

use crate::Failed;
use std::alloc::{AllocError, Global};
use thiserror::Error;

/// Names with their content.
pub trait Store {
    ghost folder: { Self → Folder };

    /// Reads bytes of a name's content from `at` on to the front of the buffer, and says how many; none only at the end.
    fn read_at(&mut self, name: &str, at: u64, buf: &mut [u8]) -> Result<usize, Failed>
        ensures bound { IfOk result (λ n. n ≤ length buf.new) }
        ensures reads { IfOk result (λ n. ReadsBytes ((folder self.old).content name.now) at n buf.new) }
        ensures later { IsLaterFolder (folder self.old) (folder self.new) }
        ensures cause { HasCause ((folder self.old).faults name.now) ((folder self.new).faults name.now) result };
}

/// Why the whole content of a name was not read.
#[derive(Clone, Copy, Debug, Drop, PartialEq, Eq, Error)]
pub enum ReadError {
    /// A read failed.
    #[error("a read failed")]
    Failed,
    /// The content has more bytes than were allowed.
    #[error("longer than {limit} bytes")]
    TooLong { limit: u64 },
    /// No memory was found for the content.
    #[error("out of memory")]
    NoMemory,
}

impl From<Failed> for ReadError {
    ghost use Rattle.sp_outside.specs.declared.store.ReadError.{ReadError};

    ghost from_gives = { λ _ e. e ≡ ReadError.Failed };

    fn from(_: Failed) -> Self {
        ReadError::Failed
    }
}

impl From<AllocError> for ReadError {
    ghost use Rattle.sp_outside.specs.declared.store.ReadError.{ReadError};

    ghost from_gives = { λ _ e. e ≡ ReadError.NoMemory };

    fn from(_: AllocError) -> Self {
        ReadError::NoMemory
    }
}

/// How many bytes are asked for at once.
const BLOCK: usize = 65536;

/// Reads the whole content of a name, in blocks of 65536 bytes until a read gives none. It stops at the first block that
/// brings more than `limit` bytes.
pub fn read_whole<S: Store>(
    alloc: Global,
    store: &mut S,
    name: &str,
    limit: u64,
) -> Result<Vec<u8>, ReadError>
    ensures whole { IfTold ((S.folder store.old).content name.now) (λ bytes. IfOk result (λ v. v.items ≡ bytes)) }
    ensures fits { IfOk result (λ v. vec_len v ≤ limit) }

    // a told content is too long exactly where it has more bytes than the limit and no read failed
    ensures too_long { result ≡ Err (ReadError.TooLong limit) →
        IfTold ((S.folder store.old).content name.now) (λ bytes. limit < length bytes) }
    ensures long { IfTold ((S.folder store.old).content name.now) (λ bytes. limit < length bytes →
        result ≢ Err ReadError.Failed → result ≢ Err ReadError.NoMemory → result ≡ Err (ReadError.TooLong limit)) }
    ensures limited { (n : ℕ) → result ≡ Err (ReadError.TooLong n) → n ≡ limit }

    ensures failed { result ≡ Err ReadError.Failed →
        Rose ((S.folder store.old).faults name.now) ((S.folder store.new).faults name.now) }
    ensures later { IsLaterFolder (S.folder store.old) (S.folder store.new) }
{
    let mut content = Vec::new(alloc);
    let mut block = fresh_block(alloc)?;
    while content.len() as u64 <= limit {
        let count = read_more(store, name, &mut content, &mut block)?;
        if count == 0 {
            return Ok(content);
        }
    }
    Err(ReadError::TooLong { limit })
}

/// A block to read into.
fn fresh_block(alloc: Global) -> Result<Vec<u8>, AllocError>
    ensures { IfOk result (λ v. 0 < vec_len v) }
{
    vec![in alloc; 0u8; BLOCK]
}

/// Reads one more block of a name behind the front of its content.
fn read_more<S: Store>(
    store: &mut S,
    name: &str,
    front: &mut Vec<u8>,
    block: &mut Vec<u8>,
) -> Result<usize, ReadError>
    requires { 0 < vec_len block.old }
    ensures longer { IfOk result (λ n. vec_len front.new ≡ vec_len front.old + n) }
    ensures more { IfTold ((S.folder store.old).content name.now) (λ bytes.
        IsFront bytes front.old.items → IfOk result (λ n. IsFront bytes front.new.items)) }
    ensures at_end { IfTold ((S.folder store.old).content name.now) (λ bytes.
        IsFront bytes front.old.items → result ≡ Ok 0 → front.new.items ≡ bytes) }
    ensures block { IfOk result (λ n. 0 < vec_len block.new) }
    ensures not_long { (n : ℕ) → result ≢ Err (ReadError.TooLong n) }
    ensures failed { result ≡ Err ReadError.Failed →
        Rose ((S.folder store.old).faults name.now) ((S.folder store.new).faults name.now) }
    ensures later { IsLaterFolder (S.folder store.old) (S.folder store.new) }
{
    let count = store.read_at(name, front.len() as u64, block.as_mut_slice())?;
    front.extend_from_slice(&block.as_slice()[..count])?;
    Ok(count)
}
