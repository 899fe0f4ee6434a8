ghost use Rattle.std.specs.Prelude.{◌≡◌, ◌↔◌, ℕ, List, Some, Ok, Err};
ghost use Rattle.sp_lex.specs.declared.lexeme.Token.{Token};
ghost use Rattle.sp_lex.specs.Tokens.{tokens_of};
ghost use Rattle.sp_lex.specs.Decimal.{Decimal, Spells, decimal_of};
ghost use Rattle.sp_lex.specs.Places.{IsCut, IsFirstForbidden};

/// What the tokens of a source are, told place by place and not from left to right. It does nothing when it runs.
///
/// Their spans rise and don't overlap, a word is a longest run, and what lies between is white space or a comment.
/// A source without tokens has a byte outside comments that isn't allowed, and the place is that of the first.
pub fn tokens_by_place(source: &[u8])
    ensures cut { (list : List Token) → (tokens_of source.now ≡ Ok list) ↔ IsCut source.now list }
    ensures forbidden { (place : ℕ) → (tokens_of source.now ≡ Err place) ↔ IsFirstForbidden source.now place }
{}

/// Which words are decimals, told by how a decimal is spelled. It does nothing when it runs.
pub fn decimal_by_spelling(word: &[u8])
    ensures { (decimal : Decimal) → (decimal_of word.now ≡ Some decimal) ↔ Spells word.now decimal }
{}
