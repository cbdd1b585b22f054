//! What holds of every text, in the words of the manual.

ghost use Rattle.std.specs.Prelude.{◌≡◌, ◌≢◌, ◌⊎◌, ℕ, List, Some, true, map, chars};
ghost use Rattle.std.specs.Str.Lines.{lines};
ghost use Rattle.line_text.specs.Lines.{logical_lines};
ghost use Rattle.line_text.specs.LogicalLines.{MakeLines};
ghost use Rattle.line_text.specs.Quoting.{quoted_words, word_bytes};
ghost use Rattle.line_text.specs.Words.{words_of};
ghost use Rattle.line_text.specs.Macros.{Macros};
ghost use Rattle.line_text.specs.Expansion.{Expands, IsExpansion, IsRefused, Meets, Passes};
ghost use Rattle.line_text.specs.declared.error.MacroError.{MacroError};
ghost use Rattle.line_text.specs.declared.error.MacroError.TheVariants as error;
ghost use Rattle.line_text.specs.declared.expansion.TheConstants.{MAX_EXPANSION};

/// Logical lines are the lines of the text, joined where one ends in a backslash, without those
/// that say nothing, each with the number of its first line.
pub fn logical_lines_are_joined()
    ensures { (text : List ℕ) → MakeLines 1 (lines text) (logical_lines text) }
{}

/// Words that are written in single quotes, with each quote in them twice, are read again.
pub fn quoted_words_are_read()
    ensures { (words : List (List ℕ)) (text : List ℕ)
        → chars text ≡ quoted_words words → words_of true text ≡ Some (map word_bytes words) }
{}

/// A text has at most one expansion over a table.
pub fn expansions_are_one()
    ensures pieces { (t : Macros) (text : List ℕ) (ss ts : List (List ℕ))
        → Expands t text ss → Expands t text ts → ss ≡ ts }
    ensures texts { (t : Macros) (text x y : List ℕ)
        → IsExpansion t text x → IsExpansion t text y → x ≡ y }
{}

/// A text that has an expansion is not refused.
pub fn expansions_are_not_refused()
    ensures met { (t : Macros) (text x : List ℕ) (e : MacroError)
        → IsExpansion t text x → Meets t text e → ⊥ }
    ensures passed { (t : Macros) (text x : List ℕ) (length : ℕ)
        → IsExpansion t text x → Passes t text length → ⊥ }
{}

/// A text is refused for at most one reason, out of memory apart.
pub fn refusals_are_one()
    ensures { (t : Macros) (text : List ℕ) (e f : MacroError)
        → IsRefused t text e → IsRefused t text f
        → e ≢ error.Memory → f ≢ error.Memory → e ≡ f }
{}

/// A text has an expansion or is refused, out of memory apart.
pub fn every_text_has_an_outcome()
    ensures { (t : Macros) (text : List ℕ)
        → ((x : List ℕ) × IsExpansion t text x)
        ⊎ ((e : MacroError) × (e ≢ error.Memory) × IsRefused t text e) }
{}

/// The limit of an expansion, in bytes, is this number.
pub fn limits_are()
    ensures { MAX_EXPANSION ≡ 65536 }
{}
