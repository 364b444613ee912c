//! Laws of written lexemes.
ghost use Rattle.std.specs.Prelude.{◌≡◌, ℕ, ◌++◌, List, Result, All, IsTrue};
ghost use Rattle.b2_base.specs.declared.token.Token.{Token};
ghost use Rattle.b2_base.specs.declared.token.TokenKind.TheVariants as kinds;
ghost use Rattle.jam_lexer.specs.declared.fault.LexFault.{LexFault};
ghost use Rattle.jam_lexer.specs.Word.{is_key_text};
ghost use Rattle.jam_lexer.specs.Tokens.{AreTokens};
ghost use Rattle.jam_lexer.specs.Answers.{IsAnswer};
ghost use Rattle.jam_spelling.specs.declared.lexeme.Lexeme.{Lexeme};
ghost use Rattle.jam_spelling.specs.Spelling.{bytes_of};
ghost use Rattle.jam_spelling.specs.LexemeLists.{IsRaw, CanStand};
ghost use Rattle.jam_spelling.specs.Readings.{ReadsAs, AreTexts, Say};

/// Lexemes that can stand in a text are what the tokens of their bytes say, and these bytes have no other answer.
pub fn read_back()
    ensures tokens { (lexemes : List Lexeme) → CanStand lexemes → AreTexts lexemes → ReadsAs (bytes_of lexemes) lexemes }
    ensures answer { (lexemes : List Lexeme) (answer : Result (List Token) LexFault) → CanStand lexemes → AreTexts lexemes → IsAnswer (bytes_of lexemes) answer → Say lexemes answer }
{}

/// Two lists that can stand in a text can stand there one after the other.
pub fn stand_joined()
    ensures { (first second : List Lexeme) → CanStand first → CanStand second → CanStand (first ++ second) }
{}

/// A Key of a text says a key's text, and its bodies are such as can stand.
pub fn lexed_stand()
    ensures keys { (bytes : List ℕ) (tokens : List Token) → AreTokens bytes tokens → All (λ token. token.kind ≡ kinds.Key → IsTrue (is_key_text token.text)) tokens }
    ensures bodies { (bytes : List ℕ) (tokens : List Token) → AreTokens bytes tokens → All (λ token. token.kind ≡ kinds.Body → IsRaw token.text) tokens }
{}
