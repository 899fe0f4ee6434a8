//! The beginning of a list.

ghost use Rattle.std.specs.Prelude.{◌≡◌, ◌≤◌, ◌∷◌, [], false, All, IfOk, OnOk, Some, drop, vec_len};
ghost use Rattle.std.specs.Arc.{arc_value};
ghost use Rattle.left_right.specs.Sides.{view};

use crate::draft::Draft;
use crate::log::{Add, Log};
use crate::notice::Notice;
use crate::publisher::Publisher;
use crate::snapshot::{Sees, SnapWriter, Tells};
use crate::viewer::Viewer;
use left_right::writer::Writer;
use sp_dd::NoMemory;
use sp_value::Edition;
use std::alloc::{AllocError, Global};
use std::sync::{Arc, Wait};

/// Begins a list, of a number of its own, with this edition 0, and makes so many viewers of it.
pub fn begin<R: Wait>(
    rt: &R,
    alloc: Global,
    first: Arc<Edition>,
    viewers: u64,
) -> Result<(Publisher, Vec<Viewer>, Notice), NoMemory>
    requires first { (arc_value first).number ≡ 0 }
    requires viewers { (1 ≤ viewers) × (viewers ≤ 8) }
    ensures editions { IfOk result (λ made. made.0.editions ≡ arc_value first ∷ []) }
    ensures open { IfOk result (λ made. made.0.ended ≡ false) }
    ensures count { IfOk result (λ made. vec_len made.1 ≡ viewers) }
    ensures viewers { IfOk result (λ made. All (λ v. v ≡ made.0) made.1.items) }
    ensures notice { IfOk result (λ made. made.2 ≡ made.0) }
{
    let (log, published) = open(first)?;
    let told = published.copied()?;
    let writer = Writer::new(
        alloc,
        published.copied()?,
        published.copied()?,
        viewers as usize,
    )?;
    let (mut writer, shown) = show_first(rt, writer);
    if shown.is_err() {
        writer.take(rt);
        return Err(NoMemory);
    }
    match make_viewers(alloc, &mut writer, &published, viewers) {
        Ok(all) => Ok((
            Publisher::over(Draft::new(log, published), writer),
            all,
            told,
        )),
        Err(error) => {
            writer.take(rt);
            Err(error)
        }
    }
}

/// A list of this edition alone, and its notice.
fn open(first: Arc<Edition>) -> Result<(Log, Notice), NoMemory>
    requires { (arc_value first).number ≡ 0 }
    ensures editions { IfOk result (λ made. made.0.editions ≡ arc_value first ∷ []) }
    ensures open { IfOk result (λ made. made.0.ended ≡ false) }
    ensures notice { IfOk result (λ made. made.1 ≡ made.0) }
{
    let mut log = Log::open();
    log.add::<Arc<Edition>, Add>(&first)?;
    let front = log.front().again();
    Ok((log, Notice::new(first, false, front)))
}

/// The writer then knows the list that it shows.
fn show_first<R: Wait>(rt: &R, writer: SnapWriter) -> (SnapWriter, Result<(), AllocError>)
    requires { drop writer.behind writer.log.items ≡ [] }
    ensures shown { result.0.desk.shown.value ≡ writer.desk.shown.value }
    ensures view { OnOk result.1 (view result.0.desk.place ≡ Some result.0.desk.shown.value) }
{
    writer.publish_as::<Sees, R>(rt)
}

fn make_viewers(
    alloc: Global,
    writer: &mut SnapWriter,
    kept: &Notice,
    viewers: u64,
) -> Result<Vec<Viewer>, NoMemory>
    requires { view writer.old.desk.place ≡ Some kept.now }
    ensures shown { writer.new.desk.shown ≡ writer.old.desk.shown }
    ensures count { IfOk result (λ all. vec_len all ≡ viewers) }
    ensures viewers { IfOk result (λ all. All (λ v. v ≡ kept.now) all.items) }
{
    let mut all = Vec::new(alloc);
    for _ in 0..viewers {
        let viewer = make_viewer(writer, kept)?;
        all.push(viewer).map_err(|_| NoMemory)?;
    }
    Ok(all)
}

fn make_viewer(writer: &mut SnapWriter, kept: &Notice) -> Result<Viewer, NoMemory>
    requires { view writer.old.desk.place ≡ Some kept.now }
    ensures shown { writer.new.desk.shown ≡ writer.old.desk.shown }
    ensures view { view writer.new.desk.place ≡ Some kept.now }
    ensures viewer { IfOk result (λ v. v ≡ kept.now) }
{
    let kept = kept.copied()?;
    let mut reader = writer.factory().reader()?;
    reader.learn::<Tells>(writer.tell::<Tells>());
    Ok(Viewer::new(reader, kept))
}
