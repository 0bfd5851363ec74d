//! Laws of tokens.

ghost use Rattle.std.specs.Prelude.{◌≡◌, ◌≢◌, ℕ, length, true, List, [], ◌∷◌, ◌++◌, drop, map, Some};
ghost use Rattle.hhas_lex.specs.Bytes.{is_white};
ghost use Rattle.hhas_lex.specs.Pieces.{IsString};
ghost use Rattle.hhas_lex.specs.Shape.{shape};
ghost use Rattle.hhas_lex.specs.Spaced.{Spaced, is_clear, last_of, text_of};
ghost use Rattle.hhas_lex.specs.Spelling.{Apart, is_proper, spelling, touches};
ghost use Rattle.hhas_lex.specs.Strings.{value_of};
ghost use Rattle.hhas_lex.specs.Tokens.{Bad, End, Token, behind, front, places, tokens};

use crate::token::TokenKind;

/// What a token's canonical spelling begins is read as that token, and white space is passed over.
pub fn spelled_tokens_are_read()
    ensures spelled { (t : Token) (rest : List ℕ) → is_proper t ≡ true → Apart t rest → tokens (spelling t ++ rest) ≡ t ∷ tokens rest }
    ensures white { (b : ℕ) (rest : List ℕ) → is_white b ≡ true → tokens (b ∷ rest) ≡ tokens rest }
    ensures end { tokens [] ≡ End ∷ [] }
{}

/// White space, and each token that may touch a token, stand apart from it.
pub fn neighbours_are_told_apart()
    ensures white { (t : Token) (b : ℕ) (rest : List ℕ) → is_white b ≡ true → Apart t (b ∷ rest) }
    ensures touching { (t next : Token) (rest : List ℕ) → is_proper next ≡ true → touches t next ≡ true → Apart t (spelling next ++ rest) }
    ensures end { (t : Token) → Apart t [] }
{}

/// A text of proper tokens that are told apart has just these tokens.
pub fn spaced_tokens_are_read()
    ensures { (t : Token) (more : List Spaced) (rest : List ℕ) → is_proper t ≡ true → is_clear t more ≡ true → Apart (last_of t more) rest
        → tokens (spelling t ++ (text_of more ++ rest)) ≡ t ∷ (map (λ (s : Spaced). s.token) more ++ tokens rest) }
{}

/// The end, or the place where no token begins, is the last token and no other is, and each token has its place.
pub fn tokens_end_once()
    ensures end { (bytes : List ℕ) → front (tokens bytes) ≡ End → tokens bytes ≡ End ∷ [] }
    ensures bad { (bytes : List ℕ) → front (tokens bytes) ≡ Bad → tokens bytes ≡ Bad ∷ [] }
    ensures more { (bytes : List ℕ) → front (tokens bytes) ≢ End → front (tokens bytes) ≢ Bad → tokens bytes ≡ front (tokens bytes) ∷ behind (tokens bytes) }
    ensures places { (at : ℕ) (bytes : List ℕ) → length (places at bytes) ≡ length (tokens bytes) }
{}

/// What spells a string is a quote, pieces and a quote, and its value is theirs.
pub fn strings_are_their_pieces()
    ensures pieces { (bytes : List ℕ) → shape bytes ≡ Some TokenKind.Str → IsString bytes (value_of (drop 1 bytes)) }
    ensures strings { (bytes value : List ℕ) → IsString bytes value → (shape bytes ≡ Some TokenKind.Str) × (value_of (drop 1 bytes) ≡ value) }
{}
