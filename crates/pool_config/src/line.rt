// Lines `NAME = value`.

ghost use Rattle.std.specs.Prelude.{◌≡◌, ◌<◌};
ghost use Rattle.std.specs.List.{list_all};
ghost use Rattle.std.specs.Option.{option_map};
ghost use Rattle.ad_token.specs.Names.{is_name_byte};
ghost use Rattle.pool_config.specs.Names.{cut_at, named, setting_in, is_setting_name, has_blank, head_of};

use crate::is_word_byte;
use ad_token::{is_blank, trimmed_text};

/// The name and the value of a line, without the blanks round them. None exactly where no `=` is
/// there, or what is before the first of them is no name: a name has no blanks, and before its
/// first dot it has only letters, digits and `_`. Computes in O(bytes).
pub(crate) fn setting_in(line: &str) -> Option<(&str, &str)>
    ensures { option_map (λ p. (p.0.now, p.1.now)) result ≡ setting_in line.now }
{
    match cut_at(line, '=') {
        Some((name, value)) => named(trimmed_text(name), value),
        None => None,
    }
}

fn named<'a>(name: &'a str, value: &'a str) -> Option<(&'a str, &'a str)>
    ensures { option_map (λ p. (p.0.now, p.1.now)) result ≡ named name.now value.now }
{
    if is_setting_name(name) {
        Some((name, trimmed_text(value)))
    } else {
        None
    }
}

/// What stands before the first such mark, which is ASCII, and what after it. Computes in
/// O(bytes).
pub(crate) fn cut_at(text: &str, mark: char) -> Option<(&str, &str)>
    requires { mark < 128 }
    ensures { option_map (λ p. (p.0.now, p.1.now)) result ≡ cut_at mark text.now }
{
    text.split_once(mark)
}

fn is_setting_name(name: &str) -> bool
    ensures { result ≡ is_setting_name name.now }
{
    !name.is_empty() && !has_blank(name.as_bytes()) && are_word_bytes(head_of(name).as_bytes())
}

fn has_blank(bytes: &[u8]) -> bool
    ensures { result ≡ has_blank bytes.now }
{
    bytes.iter().any(|b| is_blank(*b))
}

// What stands before the first dot.
fn head_of(name: &str) -> &str
    ensures { result.now ≡ head_of name.now }
{
    match cut_at(name, '.') {
        Some((head, _)) => head,
        None => name,
    }
}

fn are_word_bytes(bytes: &[u8]) -> bool
    ensures { result ≡ list_all is_name_byte bytes.now }
{
    bytes.iter().all(|b| is_word_byte(*b))
}
