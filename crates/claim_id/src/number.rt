ghost use Rattle.std.specs.Prelude.{◌≡◌, ◌≢◌, ◌<◌, ◌^◌, ◌⊎◌, ◌++◌, ◌∷◌, ℕ, List, IfSome, IsSomeAnd, MatchOption, decimal};

use ad_value::number_in;

// The number that a text begins with, and what follows the mark behind that number.
pub(crate) fn number_before(text: &str, mark: char) -> Option<(u64, &str)>
    requires ascii { mark < 128 }
    requires no_digit { (mark < 48) ⊎ (57 < mark) }
    ensures found { IfSome result (λ p. text.now ≡ decimal p.0 ++ mark ∷ p.1.now) }
    ensures only { (n : ℕ) (rest : List ℕ) → n < 2 ^ 64 → text.now ≡ decimal n ++ mark ∷ rest
        → IsSomeAnd result (λ p. (p.0 ≡ n) × (p.1.now ≡ rest)) }
{
    let (digits, rest) = text.split_once(mark)?;
    Some((number_in(digits)?, rest))
}

// What follows a mark at the beginning of a text.
pub(crate) fn after_mark(text: &str, mark: char) -> Option<&str>
    requires { mark < 128 }
    ensures { MatchOption result ((rest : List ℕ) → text.now ≢ mark ∷ rest)
        (λ rest. text.now ≡ mark ∷ rest.now) }
{
    text.strip_prefix(mark)
}
