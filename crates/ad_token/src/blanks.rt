ghost use Rattle.std.specs.Prelude.{◌≡◌, ◌≤◌, length};
ghost use Rattle.std.specs.List.{prefix_len, suffix_len};
ghost use Rattle.ad_token.specs.Lexing.{is_blank};
ghost use Rattle.ad_token.specs.Blanks.{past_blanks, trimmed_end, trimmed_text};

use crate::lexer::is_blank;

/// The text without the blanks at both ends. Computes in O(blanks), without memory.
pub fn trimmed_text(text: &str) -> &str
    ensures { result.now ≡ trimmed_text text.now }
{
    trimmed_end(past_blanks(text))
}

/// The text after the blanks that it begins with. Computes in O(blanks), without memory.
#[tactic(auto, using(crate::proofs::Trimmed::start_boundary))]
pub fn past_blanks(text: &str) -> &str
    ensures { result.now ≡ past_blanks text.now }
{
    &text[blanks_at_start(text.as_bytes())..]
}

#[tactic(auto, using(crate::proofs::Trimmed::end_boundary))]
fn trimmed_end(text: &str) -> &str
    ensures { result.now ≡ trimmed_end text.now }
{
    &text[..text.len() - blanks_at_end(text.as_bytes())]
}

// How many blanks a text begins with.
fn blanks_at_start(bytes: &[u8]) -> usize
    ensures value { result ≡ prefix_len is_blank bytes.now }
    ensures within { result ≤ length bytes.now }
{
    bytes.iter().take_while(|b| is_blank(**b)).count()
}

// How many blanks a text ends with.
fn blanks_at_end(bytes: &[u8]) -> usize
    ensures value { result ≡ suffix_len is_blank bytes.now }
    ensures within { result ≤ length bytes.now }
{
    bytes.iter().rev().take_while(|b| is_blank(**b)).count()
}
