//! The tokens of a text.
#![tactic(auto)]

ghost use Rattle.std.specs.Prelude.{◌≡◌, ◌≢◌, ◌<◌, ◌≤◌, ◌⊎◌, ℕ, List, length, vec_len, All, AllPairs, IfOk, IfErr, MatchResult};
ghost use Rattle.perm_tree.specs.declared.errors.LexError.{LexError};
ghost use Rattle.perm_tree.specs.declared.tokens.Token.{Token};
ghost use Rattle.perm_lex.specs.Tokens.{largest};
ghost use Rattle.perm_lex.specs.Lexes.{HasOneAnswer, Lexes, Refuses};

mod gaps;
mod lexeme;
mod reader;
mod table;

use perm_tree::errors::LexError;
use perm_tree::tokens::Token;
use reader::read;
use std::alloc::Global;

/// How many bytes a text may have.
pub const MOST_BYTES: usize = 1_048_576;

/// Reads the tokens of a text. Places are counted in bytes from its beginning.
pub fn lex(alloc: Global, text: &[u8]) -> Result<Vec<Token>, LexError>
    requires { length text.now ≤ MOST_BYTES }

    // What is given is the text's list of tokens, and a text that has one is refused only where memory runs out.
    ensures tokens { IfOk result (λ found. Lexes text.now found.items) }
    ensures only_tokens { (tokens : List Token) → Lexes text.now tokens → MatchResult result (λ found. found.items ≡ tokens) (λ e. e ≡ LexError.NoMemory) }

    // A refusal is the first of the text, and a text that has one gets it, unless memory runs out.
    ensures refused { IfErr result (λ e. e ≢ LexError.NoMemory → Refuses text.now e) }
    ensures only_refusal { (e : LexError) → Refuses text.now e → MatchResult result (λ _. ⊥) (λ f. (f ≡ e) ⊎ (f ≡ LexError.NoMemory)) }

    // Each token has a byte of the text at least, and ends no later than the next one begins.
    ensures within { IfOk result (λ found. All (λ token. (token.span.start < token.span.end) × (token.span.end ≤ length text.now)) found.items) }
    ensures order { IfOk result (λ found. AllPairs (λ a b. a.span.end ≤ b.span.start) found.items) }
    ensures count { IfOk result (λ found. vec_len found ≤ length text.now) }
    ensures values { IfOk result (λ found. All (λ token. token.value ≤ largest) found.items) }
{
    read(alloc, text)
}

/// Each text, of whatever length, has one list of tokens or one refusal.
pub fn one_answer()
    ensures { (text : List ℕ) → HasOneAnswer text }
{}
