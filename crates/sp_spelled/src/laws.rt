//! What is read of texts that are spelled token by token. The functions do nothing: their contracts are the laws.

ghost use Rattle.std.specs.Prelude.{◌≤◌, ◌^◌, ℕ, ℤ, List, Bool, IsTrue, unsigned_abs};
ghost use Rattle.sp_syntax.specs.declared.text.Text.{Text};
ghost use Rattle.sp_syntax.specs.Grammar.{IsText};
ghost use Rattle.sp_show.specs.Decimals.{decimal_of};
ghost use Rattle.sp_spelled.specs.Signs.{Spelled, IsSpaced, text_of_signs, Lexes};
ghost use Rattle.sp_spelled.specs.Words.{SpellsTicks};
ghost use Rattle.sp_spelled.specs.Written.{Written, HasTree};

/// The tokens of printed signs are these signs, where each ends before the next one begins.
pub fn spelled_signs_are_tokens()
    ensures { (signs : List Spelled) → IsSpaced signs → Lexes (text_of_signs signs) signs }
{}

/// A text that is written by the productions, with at most 128 brackets open at once, has tokens and a tree, of which holds
/// what the productions show of it.
pub fn written_texts_are_read()
    ensures { (is_meant : List ℕ → Text → Bool) (depth : ℕ) (signs : List Spelled) → depth ≤ 128 → Written IsText (λ source tree. IsTrue (is_meant source tree)) depth signs
        → HasTree (text_of_signs signs) (λ source tree. IsTrue (is_meant source tree)) }
{}

/// The decimal of a number of ticks, as it is shown, is a word for that number.
pub fn shown_decimals_are_read()
    ensures { (ticks : ℤ) → unsigned_abs ticks ≤ 10 ^ 18 → SpellsTicks (decimal_of ticks) ticks }
{}
