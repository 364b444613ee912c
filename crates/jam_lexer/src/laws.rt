//! Laws of tokens and faults.
ghost use Rattle.std.specs.Prelude.{◌≡◌, ℕ, List, Result};
ghost use Rattle.b2_base.specs.declared.token.Token.{Token};
ghost use Rattle.jam_lexer.specs.declared.fault.LexFault.{LexFault};
ghost use Rattle.jam_lexer.specs.Tokens.{AreTokens};
ghost use Rattle.jam_lexer.specs.Answers.{IsFirstBad, IsOpenQuote, IsOpenActions, IsAnswer};

/// A text has one list of tokens at most.
pub fn one_list()
    ensures { (bytes : List ℕ) (tokens others : List Token) → AreTokens bytes tokens → AreTokens bytes others → tokens ≡ others }
{}

/// A text with tokens has no fault.
pub fn no_fault()
    ensures not_utf8 { (bytes : List ℕ) (tokens : List Token) (at : ℕ) → AreTokens bytes tokens → IsFirstBad bytes at → ⊥ }
    ensures open_quote { (bytes : List ℕ) (tokens : List Token) (line : ℕ) → AreTokens bytes tokens → IsOpenQuote bytes line → ⊥ }
    ensures open_actions { (bytes : List ℕ) (tokens : List Token) (line : ℕ) → AreTokens bytes tokens → IsOpenActions bytes line → ⊥ }
{}

/// Bytes have one answer at most: a list of tokens or a fault.
pub fn one_answer()
    ensures { (bytes : List ℕ) (answer other : Result (List Token) LexFault) → IsAnswer bytes answer → IsAnswer bytes other → answer ≡ other }
{}

/// Bytes have an answer.
pub fn some_answer()
    ensures { (bytes : List ℕ) → (answer : Result (List Token) LexFault) × IsAnswer bytes answer }
{}
