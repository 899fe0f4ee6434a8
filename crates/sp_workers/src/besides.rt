//! Work that is served beside the planners.

ghost use Rattle.std.specs.Prelude.{◌≡◌, ◌<◌, All, OnErr, OnOk, ℕ, length, slice_index_or};
ghost use Rattle.sp_workers.specs.Later.{StandsLater};

use crate::gate::Gate;
use crate::locked::Locked;
use sp_dd::NoMemory;
use sp_publish::{Beside, ListName, Notice};
use std::sync::{Mutex, Wait};
use std::thread;
use std::thread::Threads;

/// Makes the steps of each in a thread of its own.
pub(crate) fn serve_all<
    N: ListName + Send + Sync,
    G: Gate + Sync,
    B: Beside + Send,
    R: Threads + Wait + Sync,
>(rt: &R, locked: &Mutex<Locked<N, &R>>, first: &Notice, gate: &G, besides: &mut [B])
    requires first { first.now.list ≡ N.list }
    requires lists { All (λ b. (B.known b).list ≡ N.list) besides.old }
    ensures { (i : ℕ) (d : B) → i < length besides.old → StandsLater B.work B.known B.steps (slice_index_or besides.old i d) (slice_index_or besides.new i d) }
{
    let threads = besides.len();
    if threads > 0 {
        thread::for_each_mut(
            rt,
            besides,
            threads,
            &|_, beside| { serve(rt, locked, first, gate, beside) },
        );
    }
}

/// Makes steps until none is left or memory runs out.
fn serve<N: ListName, G: Gate, B: Beside, R: Wait, L: Wait + Drop>(
    rt: &R,
    locked: &Mutex<Locked<N, L>>,
    first: &Notice,
    gate: &G,
    beside: &mut B,
)
    requires first { first.now.list ≡ N.list }
    requires list { (B.known beside.old).list ≡ N.list }
    ensures { StandsLater B.work B.known B.steps beside.old beside.new }
{
    for _ in rt.forever() {
        if beside.left() == 0 {
            return;
        }
        if step(rt, locked, first, beside).is_err() {
            return;
        }
        gate.after_step();
    }
}

/// Makes the next step, with a notice that is made now where it wants one.
fn step<N: ListName, B: Beside, R: Wait, L: Wait + Drop>(
    rt: &R,
    locked: &Mutex<Locked<N, L>>,
    first: &Notice,
    beside: &mut B,
) -> Result<(), NoMemory>
    requires left { 0 < B.steps beside.old }
    requires first { first.now.list ≡ N.list }
    requires list { (B.known beside.old).list ≡ N.list }
    ensures { StandsLater B.work B.known B.steps beside.old beside.new }
{
    if !beside.wants_notice() {
        return beside.step(first);
    }
    let told = locked.lock(rt).tell()?;
    beside.step(&told)
}
