//! Laws of the definitions, each the contract of a function that does nothing.

ghost use Rattle.std.specs.Prelude.{◌≡◌, ◌↔◌, ◌⊎◌, ◌≤◌, ℕ, List, [], length, Ok, Err};
ghost use Rattle.ad_value.specs.Content.{Content};
ghost use Rattle.ad_value.specs.Literal.{literal_text};
ghost use Rattle.ad_tree.specs.Tree.{Tree};
ghost use Rattle.ad_tree.specs.ValueTree.{value_tree};
ghost use Rattle.ad_tree.specs.Ad.{Attributes};
ghost use Rattle.ad_token.specs.declared.token.Placed.{Placed};
ghost use Rattle.ad_token.specs.Lexing.{tokens_of};
ghost use Rattle.ad_token.specs.Canonical.{tokens_in};
ghost use Rattle.ad_parse.specs.declared.error.ParseError.{ParseError};
ghost use Rattle.ad_parse.specs.declared.error.AdError.{AdError};
ghost use Rattle.ad_parse.specs.Canon.{canon};
ghost use Rattle.ad_parse.specs.ExprText.{IsExprText, IsRefused};
ghost use Rattle.ad_parse.specs.AdText.{ad_at};
ghost use Rattle.ad_parse.specs.AdLines.{IsAdText, IsAdRefused};
ghost use Rattle.ad_parse.specs.Grammar.{IsText, IsCond};
ghost use Rattle.ad_parse.specs.Spelling.{spell};
ghost use Rattle.ad_parse.specs.ValueText.{HasReadableLiteral};
ghost use Rattle.ad_parse.specs.declared.parse.TheConstants.{MOST_NESTED};

/// A text says one expression, or is refused for one cause.
pub fn a_text_says_one_thing()
    ensures one { (text : List ℕ) (e g : Tree)
        → IsExprText text e → IsExprText text g → e ≡ g }
    ensures one_cause { (text : List ℕ) (f g : ParseError)
        → IsRefused text f → IsRefused text g → f ≡ g }
    ensures not_both { (text : List ℕ) (e : Tree) (f : ParseError)
        → IsExprText text e → IsRefused text f → ⊥ }
    ensures either { (text : List ℕ)
        → ((e : Tree) × IsExprText text e) ⊎ ((f : ParseError) × IsRefused text f) }
{}

/// The tokens of the canonical text of a tree that some text spells, wherever they stand, spell
/// that tree.
pub fn spelling_is_text()
    ensures { (us ts : List Placed) (e : Tree)
        → IsText us e → tokens_in ts ≡ spell e → IsText ts e }
{}

/// What was read from a text is read again from its canonical text.
pub fn canonical_texts_say_the_same()
    ensures { (text : List ℕ) (e : Tree) → IsExprText text e → IsExprText (canon e) e }
{}

/// No text that says an expression, however deep it nests, has fewer tokens than its canonical
/// text.
pub fn canonical_texts_have_the_fewest_tokens()
    ensures { (n : ℕ) (text : List ℕ) (e : Tree)
        → IsCond n (tokens_of text) e [] → length (tokens_of (canon e)) ≤ length (tokens_of text) }
{}

/// The canonical text of a value's expression is the value's literal. It is read as that expression
/// exactly where each of its strings stands on one line and it is within the limits.
pub fn literals_are_read()
    ensures canonical { (c : Content) → canon (value_tree c) ≡ literal_text c }
    ensures read { (c : Content)
        → (IsExprText (literal_text c) (value_tree c)) ↔ HasReadableLiteral c }
{}

/// A text says an ad exactly where each of its lines is skipped, or sets an attribute for which
/// there is room. Every other text is refused for its first line that does neither.
pub fn ad_texts_are_read()
    ensures found { (text : List ℕ) (ad : Attributes) → (ad_at text ≡ Ok ad) ↔ IsAdText text ad }
    ensures refused { (text : List ℕ) (f : AdError) → (ad_at text ≡ Err f) ↔ IsAdRefused text f }
{}

/// The limit of nesting is this number.
pub fn limits_are()
    ensures { MOST_NESTED ≡ 64 }
{}
