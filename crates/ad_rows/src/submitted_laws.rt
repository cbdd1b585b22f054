//! What holds of the expressions that ads of jobs have.

ghost use Rattle.std.specs.Prelude.{◌≡◌, ◌↔◌, ℕ, ℤ, List, true};
ghost use Rattle.ad_value.specs.Content.{text};
ghost use Rattle.ad_tree.specs.Tree.{Tree, literal};
ghost use Rattle.ad_tree.specs.ValueTree.{integer_tree};
ghost use Rattle.ad_token.specs.Names.{is_name};
ghost use Rattle.ad_parse.specs.ExprText.{IsExprText};
ghost use Rattle.ad_parse.specs.ValueText.{IsShortInteger, HasReadableLiteral};
ghost use Rattle.ad_rows.specs.Requests.{enough};
ghost use Rattle.ad_rows.specs.Submitted.{IsReadable};

/// What was read from a text is read again from its canonical text, and so are integers, and what a
/// job asks of a machine; a string exactly where it stands on one line and is not too long, and so
/// each name.
pub fn made_expressions_are_readable()
    ensures read { (text : List ℕ) (e : Tree) → IsExprText text e → IsReadable e }
    ensures integer { (n : ℤ) → IsShortInteger n → IsReadable (integer_tree n) }
    ensures string { (s : List ℕ)
        → IsReadable (literal (text s)) ↔ HasReadableLiteral (text s) }
    ensures name { (x : List ℕ) → is_name x ≡ true → HasReadableLiteral (text x) }
    ensures request { IsReadable enough }
{}
