// The line that a log begins with after a rotation: `107 N CreationTimestamp T`.

ghost use Rattle.std.specs.Prelude.{◌≡◌, true};
ghost use Rattle.std.specs.Char.{is_ascii_digit};
ghost use Rattle.std.specs.List.{list_all};
ghost use Rattle.queue_record.specs.Entries.{counted_on, is_numeral, sequence_of, stamp_at, stamp_of};

use crate::words::{are_blanks, next_word};

/// The greatest sequence that is counted on.
pub(crate) const LAST_SEQUENCE: u32 = 4_294_967_294;

// The sequence that the words behind `107` say.
#[tactic(auto, unfolding(crate::specs::Entries::stamp_at))]
pub(crate) fn stamp(after: &str) -> Option<u64>
    ensures { result ≡ stamp_at after.now }
{
    let (number, after) = next_word(after)?;
    let (word, after) = next_word(after)?;
    let (time, after) = next_word(after)?;
    stamp_of(number, word, time, after)
}

fn stamp_of(number: &str, word: &str, time: &str, after: &str) -> Option<u64>
    ensures { result ≡ stamp_of number.now word.now time.now after.now }
{
    if word == "CreationTimestamp" && is_numeral(number) && is_numeral(time) && are_blanks(after) {
        Some(sequence_of(number))
    } else {
        None
    }
}

// Whether a word has digits alone, and at least one.
fn is_numeral(word: &str) -> bool
    ensures { result ≡ is_numeral word.now }
{
    !word.is_empty() && are_digits(word)
}

fn are_digits(word: &str) -> bool
    ensures { result ≡ list_all is_ascii_digit word.now }
{
    word.as_bytes().iter().all(|b| b.is_ascii_digit())
}

// The number of digits, or 0 where it is above the greatest that is counted on.
fn sequence_of(digits: &str) -> u64
    requires { is_numeral digits.now ≡ true }
    ensures { result ≡ sequence_of digits.now }
{
    match digits.parse::<u32>() {
        Ok(number) => counted_on(number),
        Err(_) => 0,
    }
}

fn counted_on(number: u32) -> u64
    ensures { result ≡ counted_on number }
{
    if number <= LAST_SEQUENCE {
        u64::from(number)
    } else {
        0
    }
}
