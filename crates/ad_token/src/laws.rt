//! What holds of every text, in the words of the language.

ghost use Rattle.ad_value.specs.Bytes.{code};
ghost use Rattle.std.specs.Prelude.{◌≡◌, ◌<◌, ◌+◌, ◌++◌, [], ◌∷◌, ◌==◌, if◌then◌else◌, ℕ, List, Option, Some, All, length, slice_index, true, false};
ghost use Rattle.std.specs.Char.{is_ascii_digit};
ghost use Rattle.std.specs.List.{list_all, list_any};
ghost use Rattle.std.specs.Str.{all_ascii_digits};
ghost use Rattle.ad_token.specs.declared.token.Token.{Token};
ghost use Rattle.ad_token.specs.declared.token.Token.TheVariants as token;
ghost use Rattle.ad_token.specs.declared.token.Placed.{Placed};
ghost use Rattle.ad_tree.specs.declared.operator.Scope.{Scope};
ghost use Rattle.ad_tree.specs.declared.operator.Scope.TheVariants.{Bare};
ghost use Rattle.ad_token.specs.declared.names.TheConstants.{MAX_NAME};
ghost use Rattle.ad_token.specs.LongestMark.{StandsAt, IsLongestMark, BeginsNoOther};
ghost use Rattle.ad_token.specs.Names.{is_letter, is_name_byte, name_length, is_name, scope_of_prefix, NoNameFollows};
ghost use Rattle.ad_token.specs.Numbers.{AreDigits, IsFraction, IsExponent, integer_token, is_positive_digit};
ghost use Rattle.ad_token.specs.Strings.{StringSays};
ghost use Rattle.ad_token.specs.Lexing.{token_at, tokens_from, tokens_of};
ghost use Rattle.ad_token.specs.Canonical.{is_fit, is_proper, ends_at, placed_token, token_text, kinds_of, joined_text, joined_tokens, are_apart};

/// A token's canonical text is read as that token at its offset, whatever follows that can't
/// continue it.
pub fn canonical_texts_are_read()
    ensures { (at : ℕ) (t : Token) (bs : List ℕ)
        → is_proper t ≡ true → ends_at t bs ≡ true
        → tokens_from at (token_text t ++ bs)
        ≡ placed_token at t ∷ tokens_from (at + length (token_text t)) bs }
{}

/// A text that is made of tokens and blanks is read as these tokens.
pub fn joined_texts_are_read()
    ensures { (ps : List (Option Token))
        → are_apart ps ≡ true → kinds_of (joined_text ps) ≡ joined_tokens ps }
{}

/// Each token of a text stands in no expression, or has a canonical text.
pub fn tokens_have_canonical_texts()
    ensures { (bs : List ℕ) → All (λ (p : Placed). is_fit p.token ≡ true) (tokens_of bs) }
{}

/// A name takes each byte that may stand in it, and no other.
pub fn names_are_the_longest()
    ensures begins { (bs : List ℕ) → is_letter (slice_index bs 0) ≡ true → 0 < name_length bs }
    ensures within { (bs : List ℕ) (k : ℕ)
        → k < name_length bs → is_name_byte (slice_index bs k) ≡ true }
    ensures stops { (bs : List ℕ)
        → 0 < name_length bs → name_length bs < length bs
        → is_name_byte (slice_index bs (name_length bs)) ≡ false }
{}

/// `MY.` and `TARGET.` before a name, without case, say whose attribute it is. MY and TARGET are
/// names where no name follows at the dot; where it is too long, the dot is read with them.
pub fn prefixes_are_read()
    ensures named { (scope : Scope) (p x bs : List ℕ)
        → scope_of_prefix p ≡ Some scope → is_name x ≡ true
        → is_name_byte (slice_index bs 0) ≡ false
        → token_at (p ++ code "." ∷ (x ++ bs)) ≡ (token.Name scope x, length p + 1 + length x) }
    ensures alone { (scope : Scope) (p bs : List ℕ)
        → scope_of_prefix p ≡ Some scope
        → is_name_byte (slice_index bs 0) ≡ false → NoNameFollows bs
        → token_at (p ++ bs) ≡ (token.Name Bare p, length p) }
    ensures too_long { (scope : Scope) (p x bs : List ℕ)
        → scope_of_prefix p ≡ Some scope
        → is_letter (slice_index x 0) ≡ true → list_all is_name_byte x ≡ true
        → MAX_NAME < length x → is_name_byte (slice_index bs 0) ≡ false
        → token_at (p ++ code "." ∷ (x ++ bs)) ≡ (token.Name Bare p, length p + 1) }
{}

/// Digits are an integer, whatever zeros they begin with. Digits, a dot and digits are one too
/// where those after the dot are zeros; so are digits with an exponent, where the digits of the
/// fraction and of the exponent are zeros. A dot before digits begins a real number.
pub fn numbers_are_read()
    ensures integers { (ds bs : List ℕ)
        → AreDigits ds
        → is_name_byte (slice_index bs 0) ≡ false → slice_index bs 0 == code "." ≡ false
        → token_at (ds ++ bs) ≡ (integer_token ds, length ds) }
    ensures decimals { (ds fs bs : List ℕ)
        → AreDigits ds → all_ascii_digits fs ≡ true → is_name_byte (slice_index bs 0) ≡ false
        → token_at (ds ++ code "." ∷ (fs ++ bs))
        ≡ (
          if list_any is_positive_digit fs then token.Real else integer_token ds,
          length ds + (1 + length fs),
        ) }
    ensures exponents { (ds fs es bs : List ℕ)
        → AreDigits ds → IsFraction fs → IsExponent es → is_ascii_digit (slice_index bs 0) ≡ false
        → token_at (ds ++ (fs ++ (es ++ bs)))
        ≡ (
          if list_any is_positive_digit (fs ++ es) then token.Real else integer_token ds,
          length ds + length (fs ++ es),
        ) }
    ensures no_exponents { (ds fs bs : List ℕ)
        → AreDigits ds → IsFraction fs
        → is_ascii_digit (slice_index bs 0) ≡ false
        → (fs ≡ [] → slice_index bs 0 == code "." ≡ false)
        → ((es more : List ℕ) → bs ≡ es ++ more → IsExponent es → ⊥)
        → token_at (ds ++ (fs ++ bs))
        ≡ (
          if list_any is_positive_digit fs then token.Real else integer_token ds,
          length ds + length fs,
        ) }
    ensures points { (bs : List ℕ)
        → token_at (code "." ∷ bs)
        ≡ (if is_ascii_digit (slice_index bs 0) then token.Real else token.Bad, 1) }
{}

/// A string is what its pieces say, up to the first quote that is none of them. Where there is
/// none on the line, the opening quote stands in no expression.
pub fn strings_are_read()
    ensures closed { (written said bs : List ℕ)
        → StringSays written said
        → token_at (code "\"" ∷ (written ++ code "\"" ∷ bs))
        ≡ (token.Str said, length written + 2) }
    ensures unclosed { (bs : List ℕ)
        → ((written said more : List ℕ)
        → bs ≡ written ++ code "\"" ∷ more → StringSays written said → ⊥)
        → token_at (code "\"" ∷ bs) ≡ (token.Bad, 1) }
{}

/// Where a mark stands, the longest one that stands there is taken. A byte that begins no mark and
/// no other token stands in no expression.
pub fn marks_are_the_longest()
    ensures longest { (bs : List ℕ) (t : Token)
        → StandsAt bs t → IsLongestMark bs (token_at bs) }
    ensures none { (b : ℕ) (bs : List ℕ)
        → BeginsNoOther b → ((t : Token) → StandsAt (b ∷ bs) t → ⊥)
        → token_at (b ∷ bs) ≡ (token.Bad, 1) }
{}

/// The limit of a name's length, in bytes, is this number.
pub fn limits_are()
    ensures { MAX_NAME ≡ 128 }
{}
