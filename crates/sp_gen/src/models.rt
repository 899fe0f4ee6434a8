//! The text of a generated model.

ghost use Rattle.std.specs.Prelude.{◌≡◌, ◌≤◌, ◌+◌, ◌++◌, IfOk, OnOk, string_bytes};
ghost use Rattle.sp_gen.specs.Models.{each, look_action, fix_action, set_action, declarations, opening_belief, actions, rewards, generated_text};

use sp_dd::NoMemory;
use std::alloc::{AllocError, Global};

const LOOK: &str =
    "dd blind (0.5) enddd\naction look\nobserve hint (x1' (off (hint' (off (0.85)) (on (0.15)))) (on (hint' (off (0.15)) (on (0.85))))) endobserve\ncost (0.1)\nendaction\n";

const FIX: &str =
    "action fix\nx1 (x1 (off (x1' (off (0.1)) (on (0.9)))) (on (x1' (off (0.0)) (on (1.0)))))\nobserve hint (blind) endobserve\ncost (1.0)\nendaction\n";

/// The model text of a number: `number + 8` two-valued variables, of which the first is hidden and pays most. The action
/// `look` tells of it in 85 of 100 cases, `fix` switches it on, and `set2` to `set5` switch on one other variable each.
pub fn generated(alloc: Global, number: u64) -> Result<String, NoMemory>
    requires { number ≤ 16 }
    ensures { IfOk result (λ text. string_bytes text ≡ generated_text number) }
{
    let mut text = String::new(alloc);
    push_declarations(&mut text, number + 8)?;
    push_opening(&mut text, number + 7)?;
    push_actions(&mut text)?;
    push_rewards(&mut text, number + 7)?;
    text.push_str("discount 0.95\n")?;
    Ok(text)
}

/// Adds so many variables, and the observation variable.
fn push_declarations(text: &mut String, count: u64) -> Result<(), AllocError>
    requires { count ≤ 24 }
    ensures { OnOk result (string_bytes text.new ≡ string_bytes text.old ++ declarations count) }
{
    text.push_str("(variables")?;
    push_each(text, " (x", " off on)", 1, count)?;
    text.push_str(")\n(observations (hint off on))\n")?;
    Ok(())
}

/// Adds the initial belief of the first variable and so many others.
fn push_opening(text: &mut String, count: u64) -> Result<(), AllocError>
    requires { count ≤ 24 }
    ensures { OnOk result (string_bytes text.new ≡ string_bytes text.old ++ opening_belief count) }
{
    text.push_str("init [* (x1 (off (0.5)) (on (0.5)))")?;
    push_each(text, " (x", " (off (1.0)) (on (0.0)))", 2, count)?;
    text.push_str("]\n")?;
    Ok(())
}

/// Adds the actions.
#[tactic(auto, using(std::proofs::Common::append_assoc), unfolding(crate::specs::Models::actions))]
fn push_actions(text: &mut String) -> Result<(), AllocError>
    ensures { OnOk result (string_bytes text.new ≡ string_bytes text.old ++ actions) }
{
    push_look(text)?;
    push_fix(text)?;
    push_set(text, 2)?;
    push_set(text, 3)?;
    push_set(text, 4)?;
    push_set(text, 5)?;
    Ok(())
}

/// Adds what looking and the blind observation are.
#[tactic(auto, unfolding(crate::specs::Models::look_action))]
fn push_look(text: &mut String) -> Result<(), AllocError>
    ensures { OnOk result (string_bytes text.new ≡ string_bytes text.old ++ look_action) }
{
    text.push_str(LOOK)
}

/// Adds what fixing is.
#[tactic(auto, unfolding(crate::specs::Models::fix_action))]
fn push_fix(text: &mut String) -> Result<(), AllocError>
    ensures { OnOk result (string_bytes text.new ≡ string_bytes text.old ++ fix_action) }
{
    text.push_str(FIX)
}

/// Adds what the first variable and so many others pay.
fn push_rewards(text: &mut String, count: u64) -> Result<(), AllocError>
    requires { count ≤ 24 }
    ensures { OnOk result (string_bytes text.new ≡ string_bytes text.old ++ rewards count) }
{
    text.push_str("reward [+ (x1 (off (0.0)) (on (5.0)))")?;
    push_each(text, " (x", " (off (0.0)) (on (1.0)))", 2, count)?;
    text.push_str("]\n")?;
    Ok(())
}

/// Adds so many numbers from the first on, each between two texts.
#[tactic(auto, using(std::proofs::Common::append_assoc, crate::proofs::Lists::one_more))]
fn push_each(
    text: &mut String,
    before: &str,
    after: &str,
    first: u64,
    count: u64,
) -> Result<(), AllocError>
    requires { first + count ≤ 64 }
    ensures { OnOk result (string_bytes text.new ≡ string_bytes text.old ++ each before.now after.now first count) }
{
    for number in first..first + count {
        write!(text, "{before}{number}{after}")?;
    }
    Ok(())
}

/// Adds the action that switches on one variable.
#[tactic(auto, unfolding(crate::specs::Models::set_action))]
fn push_set(text: &mut String, number: u64) -> Result<(), AllocError>
    ensures { OnOk result (string_bytes text.new ≡ string_bytes text.old ++ set_action number) }
{
    write!(
        text,
        "action set{number}\nx{number} (x{number}' (off (0.0)) (on (1.0)))\nobserve hint (blind) endobserve\ncost (0.5)\nendaction\n"
    )
}
