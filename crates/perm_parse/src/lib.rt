//! The grammar: programs from tokens.
#![tactic(auto)]

ghost use Rattle.std.specs.Prelude.{◌≡◌, ◌≢◌, ◌<◌, ◌≤◌, ◌^◌, ◌⊎◌, ℕ, All, AllPairs, List, length, IfOk, IfErr, MatchResult};
ghost use Rattle.perm_tree.specs.Places.{Listing};
ghost use Rattle.perm_tree.specs.declared.errors.ParseError.{ParseError};
ghost use Rattle.perm_tree.specs.declared.tokens.Token.{Token};
ghost use Rattle.perm_lex.specs.Lexes.{Lexes};
ghost use Rattle.perm_tree.specs.Printer.Programs.{canonical};
ghost use Rattle.perm_parse.specs.Parses.{HasOneAnswer, IsRefused, Parses};
ghost use Rattle.perm_parse.specs.ReadsBack.{ReadsBack};
ghost use Rattle.perm_parse.specs.SameButSpans.{SameButSpans};
ghost use Rattle.perm_parse.specs.Tokens.{IsOver};

mod arguments;
mod blocks;
mod classes;
mod cursor;
mod expressions;
mod members;
mod parser;
mod simple;
mod statements;
mod types;
mod values;

use classes::read;
use perm_tree::errors::ParseError;
use perm_tree::program::Program;
use perm_tree::tokens::Token;
use std::alloc::Global;

/// Reads the program that the tokens of a text are.
pub fn parse(alloc: Global, text: &[u8], tokens: &[Token]) -> Result<Program, ParseError>
    requires few { length tokens.now < 2 ^ 32 }
    requires over { IsOver text.now tokens.now }

    // Each token has a byte at least, and ends no later than the next one begins.
    requires some { All (λ t. t.span.start < t.span.end) tokens.now }
    requires order { AllPairs (λ a b. a.span.end ≤ b.span.start) tokens.now }

    // What is given is the program that the tokens are, and tokens that are one are refused only where memory runs out.
    ensures program { IfOk result (λ found. Parses text.now tokens.now found) }
    ensures only_program { (program : Listing) → Parses text.now tokens.now program → MatchResult result (λ found. found ≡ program) (λ e. e ≡ ParseError.NoMemory) }

    // A refusal is that of the first token which is refused, and tokens that have one get it, unless memory runs out.
    ensures refused { IfErr result (λ e. e ≢ ParseError.NoMemory → IsRefused tokens.now e) }
    ensures only_refusal { (e : ParseError) → IsRefused tokens.now e → MatchResult result (λ _. ⊥) (λ f. (f ≡ e) ⊎ (f ≡ ParseError.NoMemory)) }
{
    read(alloc, text, tokens)
}

/// Any tokens are one program or have one refusal.
pub fn one_answer()
    ensures { (text : List ℕ) (tokens : List Token) → HasOneAnswer text tokens }
{}

/// The canonical text of a program that a text parses to is read as that program, but for its spans, and as no other one.
pub fn reads_back()
    ensures read { (text : List ℕ) (tokens : List Token) (program : Listing) → Lexes text tokens → Parses text tokens program → ReadsBack (canonical program) program }
    ensures alone { (text : List ℕ) (tokens : List Token) (program : Listing) → Lexes text tokens → Parses text tokens program
        → (others : List Token) (other : Listing) → Lexes (canonical program) others → Parses (canonical program) others other → SameButSpans program other }
{}

/// The tokens of a text stand in it, in order, and a text of fewer than 2^32 bytes has fewer tokens than that.
pub fn lexed()
    ensures over { (text : List ℕ) (tokens : List Token) → Lexes text tokens → IsOver text tokens }
    ensures some { (text : List ℕ) (tokens : List Token) → Lexes text tokens → All (λ t. t.span.start < t.span.end) tokens }
    ensures order { (text : List ℕ) (tokens : List Token) → Lexes text tokens → AllPairs (λ a b. a.span.end ≤ b.span.start) tokens }
    ensures few { (text : List ℕ) (tokens : List Token) → Lexes text tokens → length text < 2 ^ 32 → length tokens < 2 ^ 32 }
{}
