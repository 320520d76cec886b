//! Reading Java's tokens from left to right, as lists: what is read is what the grammar spells.
//! There is no running code here: the parser says that it computes these readers.
#![tactic(auto)]

ghost use Rattle.std.specs.Prelude.{◌≡◌, ℕ, List};
ghost use Rattle.jv_tree.specs.declared.token.Token.{Token};
ghost use Rattle.jv_tree.specs.Source.{Expr, File};
ghost use Rattle.jv_tree.specs.Expressions.{IsExpr};
ghost use Rattle.jv_tree.specs.Files.{Spells};

/// Tokens spell one expression at most, however many parentheses may be open.
pub fn one_expression()
    ensures { (n : ℕ) → (e f : Expr) → (ts : List Token) → IsExpr n e ts → IsExpr n f ts → e ≡ f }
{}

/// Tokens spell one file at most, with all its places.
pub fn one_file()
    ensures { (f g : File) → (ts : List Token) → Spells f ts → Spells g ts → f ≡ g }
{}
