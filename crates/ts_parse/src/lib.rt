//! Reads the tokens of a typestate file, and what is written there.
//! The grammar says which tokens spell which file; names are judged in the crate above.
#![tactic(auto)]

ghost use Rattle.std.specs.Prelude.{◌≡◌, ◌≤◌, ℕ, List, length, IfOk, IsErrOf};
ghost use Rattle.mg_read.specs.Lexed.{MatchLexed};
ghost use Rattle.ts_parse.specs.Tok.{Tok, toks, AreTokens, IsBadAt};
ghost use Rattle.ts_parse.specs.Written.{WFile, wfile_of};
ghost use Rattle.ts_parse.specs.Grammar.{IsSpelled};
ghost use Rattle.ts_parse.specs.Answer.{IsReadOrMemory, SaysSyntax};

mod entries;
mod front;
mod head;
mod methods;
mod scan;
mod states;
mod token;
mod words;
mod written;

pub use mg_read::LexFault;
use mg_read::ParseFault;
use std::alloc::Global;
pub use token::{Mark, Token, TokenKind};
pub use written::{
    Naming, WrittenBranch, WrittenEntry, WrittenMethod, WrittenState, WrittenTarget,
    WrittenTypestate,
};

/// The tokens of the bytes of a file, each with its place. The bytes of a comment are free, as
/// long as they are UTF-8.
///
/// # Errors
/// `BadByte` with the first offset at which no token and nothing between tokens begins, or at
/// which the bytes stop to be UTF-8; `Memory`.
pub fn tokens(alloc: Global, file: u32, bytes: &[u8]) -> Result<mg_text::List<Token>, LexFault>
    requires { length bytes.now ≤ 1048576 }
    // What is found are the bytes' tokens.
    ensures found { IfOk result (λ v. AreTokens file (toks v.items) bytes.now) }
    // A bad byte is the first one.
    ensures bad { (k : ℕ) → IsErrOf result (LexFault.BadByte k) → IsBadAt k bytes.now }
    // Where the bytes have tokens, these are found, unless memory runs out.
    ensures only { (ts : List Tok) → AreTokens file ts bytes.now
        → MatchLexed result (λ v. toks v.items ≡ ts) (λ k. ⊥) }
    // Where they have a bad byte, its offset is answered, unless memory runs out.
    ensures fault { (k : ℕ) → IsBadAt k bytes.now → MatchLexed result (λ v. ⊥) (λ j. j ≡ k) }
{
    scan::scan_tokens(alloc, file, bytes)
}

/// No bytes have two rows of tokens, or a row and a bad byte, or two bad bytes that are the first.
pub fn one_cut()
    ensures same { (file : ℕ) (ts us : List Tok) (bytes : List ℕ)
        → AreTokens file ts bytes → AreTokens file us bytes → ts ≡ us }
    ensures either { (file : ℕ) (ts : List Tok) (k : ℕ) (bytes : List ℕ)
        → AreTokens file ts bytes → IsBadAt k bytes → ⊥ }
    ensures one_bad { (k j : ℕ) (bytes : List ℕ) → IsBadAt k bytes → IsBadAt j bytes → k ≡ j }
{}

/// The file that the tokens spell.
///
/// # Errors
/// `Syntax` where they spell none, with the first token that no file goes on with; `Memory`.
pub fn read_written(alloc: Global, tokens: &[Token]) -> Result<WrittenTypestate, ParseFault>
    // What is read is spelled so.
    ensures found { IfOk result (λ w. IsSpelled (wfile_of w) (toks tokens.now)) }
    // Where something is spelled so, it is read, unless memory runs out.
    ensures only { (w : WFile) → IsSpelled w (toks tokens.now) → IsReadOrMemory result w }
    // Syntax says that nothing is spelled so.
    ensures none { SaysSyntax result → (w : WFile) → IsSpelled w (toks tokens.now) → ⊥ }
{
    states::file_of(alloc, tokens)
}

/// Tokens spell one file at most.
pub fn one_file()
    ensures { (v w : WFile) (ts : List Tok) → IsSpelled v ts → IsSpelled w ts → v ≡ w }
{}
