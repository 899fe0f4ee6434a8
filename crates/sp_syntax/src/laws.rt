ghost use Rattle.std.specs.Prelude.{◌≡◌, ℕ, List, Ok, length};
ghost use Rattle.sp_lex.specs.declared.lexeme.Token.{Token};
ghost use Rattle.sp_lex.specs.Tokens.{tokens_of};
ghost use Rattle.sp_syntax.specs.declared.text.Text.{Text};
ghost use Rattle.sp_syntax.specs.Classes.{classes};
ghost use Rattle.sp_syntax.specs.Fault.{Fault};
ghost use Rattle.sp_syntax.specs.Grammar.{InGrammar, IsText};
ghost use Rattle.sp_syntax.specs.Refusal.{IsShallow, RefusesTokens};
ghost use Rattle.sp_syntax.specs.Spans.{AreRising, text_spans};

use sp_lex::{Tokens, tokens_by_place};

/// Some tokens are one text at most: the grammar gives them no second tree. It does nothing when it runs.
pub fn text_is_unique(source: &[u8], tokens: &Tokens)
    ensures { (first second : Text) → IsText first (classes source.now tokens.now) → IsText second (classes source.now tokens.now) → first ≡ second }
{}

/// Tokens that are refused are no text of the grammar, or one with too many open brackets: so a text is accepted exactly
/// where it is one. It does nothing when it runs.
pub fn refused_is_no_text(source: &[u8], tokens: &Tokens)
    ensures { (end : ℕ) (fault : Fault) → RefusesTokens end (classes source.now tokens.now) fault → InGrammar (classes source.now tokens.now) → IsShallow (classes source.now tokens.now) → ⊥ }
{}

/// Places rise through a text: of the spans in its tree, in the text's order, none is empty, and each begins behind the one before
/// and ends within the source. It does nothing when it runs.
#[tactic(auto, using(crate::proofs::SpanLemmas::spans_rise))]
pub fn spans_rise(source: &[u8])
    ensures { (tokens : List Token) (text : Text) → tokens_of source.now ≡ Ok tokens → IsText text (classes source.now tokens) → AreRising 0 (text_spans text) (length source.now) }
{
    tokens_by_place(source);
}
