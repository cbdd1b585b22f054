// The words of a line, each of which stands behind one blank.

ghost use Rattle.std.specs.Prelude.{◌≡◌, ◌≤◌, length, drop, true};
ghost use Rattle.std.specs.Option.{option_map};
ghost use Rattle.queue_record.specs.Words.{first_word, past_word, next_word, word_length, begins_blank, are_blanks};

use ad_token::is_blank;

// The bytes up to the first blank, and those from it on.
#[tactic(auto, using(crate::proofs::Boundaries::word_boundary))]
pub(crate) fn first_word(text: &str) -> (&str, &str)
    ensures word { result.0.now ≡ first_word text.now }
    ensures after { result.1.now ≡ past_word text.now }
{
    text.split_at(word_length(text.as_bytes()))
}

// The word behind one blank, and the bytes from the next blank on.
pub(crate) fn next_word(text: &str) -> Option<(&str, &str)>
    ensures { option_map (λ p. (p.0.now, p.1.now)) result ≡ next_word text.now }
{
    if !begins_blank(text) {
        return None;
    }
    Some(first_word(past_first(text)))
}

// The bytes behind a blank.
#[tactic(auto, using(crate::proofs::Boundaries::blank_boundary))]
fn past_first(text: &str) -> &str
    requires { begins_blank text.now ≡ true }
    ensures { result.now ≡ drop 1 text.now }
{
    &text[1..]
}

// Whether there are only blanks.
pub(crate) fn are_blanks(text: &str) -> bool
    ensures { result ≡ are_blanks text.now }
{
    text.as_bytes().iter().all(|b| is_blank(*b))
}

// Whether a blank comes first.
pub(crate) fn begins_blank(text: &str) -> bool
    ensures { result ≡ begins_blank text.now }
{
    match text.as_bytes().first() {
        Some(b) => is_blank(*b),
        None => false,
    }
}

// How many bytes stand before the first blank.
fn word_length(bytes: &[u8]) -> usize
    ensures value { result ≡ word_length bytes.now }
    ensures within { result ≤ length bytes.now }
{
    bytes.iter().take_while(|b| !is_blank(**b)).count()
}
