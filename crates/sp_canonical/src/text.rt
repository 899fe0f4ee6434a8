//! The canonical text of a model.

ghost use Rattle.std.specs.Prelude.{◌≡◌, ◌++◌, IfOk, OnOk};
ghost use Rattle.sp_spelled.specs.Signs.{text_of_signs};
ghost use Rattle.sp_model.specs.Kept.{IsModel};
ghost use Rattle.sp_canonical.specs.ModelSigns.{discount_signs, model_signs, reward_signs};

use crate::actions::put_actions;
use crate::declarations::put_declarations;
use crate::init::put_init;
use crate::page::{Gap, Page};
use crate::words::put_value;
use sp_dd::NoMemory;
use sp_model::{Model, Parts};
use std::alloc::Global;

/// The canonical text of a model: its declarations, the initial belief, the actions, reward and discount, with a line for each
/// node of each of its functions. Takes time and memory in proportion to the text and the model.
pub fn model_text(alloc: Global, model: &Model) -> Result<Vec<u8>, NoMemory>
    ensures { IfOk result (λ text. text.items ≡ text_of_signs (model_signs model.now)) }
{
    let mut page = Page::new(alloc);
    put_parts(alloc, &mut page, model.parts())?;
    Ok(page.into_bytes())
}

/// The lines of a model's parts.
fn put_parts(alloc: Global, page: &mut Page, parts: &Parts) -> Result<(), NoMemory>
    requires { IsModel parts.now }
    ensures { OnOk result (page.new ≡ page.old ++ text_of_signs (model_signs parts.now)) }
{
    put_declarations(page, b"variables", parts.variables.as_slice())?;
    put_declarations(page, b"observations", parts.sights.as_slice())?;
    let base = put_init(alloc, page, parts)?;
    put_actions(alloc, page, parts, base)?;
    put_reward(page)?;
    put_discount(page, parts.discount)?;
    Ok(())
}

/// The line of the reward, which is in the actions' costs.
#[tactic(auto, using(crate::proofs::Pieces::printed_reward))]
fn put_reward(page: &mut Page) -> Result<(), NoMemory>
    ensures { OnOk result (page.new ≡ page.old ++ text_of_signs reward_signs) }
{
    page.put(b"reward ")?;
    put_value(page, 0, Gap::Line)
}

/// The line of the discount.
#[tactic(auto, using(crate::proofs::Pieces::printed_discount))]
fn put_discount(page: &mut Page, discount: u64) -> Result<(), NoMemory>
    ensures { OnOk result (page.new ≡ page.old ++ text_of_signs (discount_signs discount)) }
{
    page.put(b"discount ")?;
    page.put_ticks(discount as i128)?;
    page.put(b"\n")
}
