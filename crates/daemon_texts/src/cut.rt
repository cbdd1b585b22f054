ghost use Rattle.std.specs.Prelude.{◌≡◌, ◌<◌, ◌++◌, ◌∷◌, IfSome};

/// What stands before the first mark of a text, and what after it. Computes in O(bytes).
pub(crate) fn cut(text: &str, mark: char) -> Option<(&str, &str)>
    requires { mark < 128 }
    ensures { IfSome result (λ p. text.now ≡ p.0.now ++ mark ∷ p.1.now) }
{
    text.split_once(mark)
}
