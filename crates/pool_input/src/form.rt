ghost use Rattle.std.specs.Prelude.{◌≡◌, ◌≢◌, ◌∷◌, ℕ, List, true, false, MatchOption};
ghost use Rattle.std.specs.List.{list_all};
ghost use Rattle.pool_input.specs.Words.{IsNoRun, IsOfForm, is_plain, texts};

use crate::command::RUN;

/// Whether the words are of the form `run CONFIG [SUBMIT ...]`. Computes in O(words).
pub(crate) fn is_run(words: &[String]) -> bool
    ensures yes { result ≡ true → IsOfForm (texts words.now) }
    ensures no { result ≡ false → IsNoRun (texts words.now) }
{
    match cut(words) {
        Some((run, config, submits)) => run == RUN && is_plain(config) && are_plain(submits),
        None => false,
    }
}

// The first two words, and the others.
fn cut(words: &[String]) -> Option<(&str, &str, &[String])>
    ensures { MatchOption result
        ((first second : List ℕ) (rest : List (List ℕ)) → texts words.now ≢ first ∷ second ∷ rest)
        (λ w. texts words.now ≡ w.0.now ∷ w.1.now ∷ texts w.2.now) }
{
    let (first, rest) = words.split_first()?;
    let (second, rest) = rest.split_first()?;
    Some((first.as_str(), second.as_str(), rest))
}

// Whether a word names a file and is no option.
fn is_plain(word: &str) -> bool
    ensures { result ≡ is_plain word.now }
{
    match word.as_bytes() {
        [] => false,
        [first, ..] => *first != b'-',
    }
}

fn are_plain(words: &[String]) -> bool
    ensures { result ≡ list_all is_plain (texts words.now) }
{
    for word in words {
        if !is_plain(word.as_str()) {
            return false;
        }
    }
    true
}
