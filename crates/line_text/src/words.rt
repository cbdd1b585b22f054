// Words of arguments.

ghost use Rattle.std.specs.Prelude.{◌≡◌, ◌++◌, IfOk, OnOk, string_bytes};
ghost use Rattle.line_text.specs.Words.{place_outside, next_place, is_part, is_between, word_at, with_part, words_of};

use ad_value::{Memory, Text, TextList};
use std::alloc::Global;

/// Where a reader of words stands.
#[derive(Clone, Copy)]
pub enum Place {
    /// Between words.
    Between,
    /// In a word, outside single quotes.
    Inside,
    /// In a word, within single quotes.
    Quoted,
    /// In a word, after a single quote within quotes: it closes them, unless another comes.
    Closing,
}

/// The words of a job's arguments, cut at blanks and tabs (HTCondor manual, "condor_submit",
/// `arguments`). In the quoted form, that of the attribute Arguments, single quotes group, also
/// blanks and nothing at all, and two of them within quotes are one; none exactly where a single
/// quote is not closed. In the plain form, that of Args, a quote is a letter like others. Computes
/// in O(bytes).
pub fn arg_words(alloc: Global, text: &str, quoted: bool) -> Result<Option<TextList>, Memory>
    ensures { IfOk result (λ words. words ≡ words_of quoted text.now) }
{
    let mut words = TextList::new(alloc);
    let mut word = String::new(alloc);
    let mut place = Place::Between;
    for c in text.chars() {
        let next = next_place(place, quoted, c);
        if is_between(next) {
            end_word(alloc, &mut words, place, word.as_str())?;
            word.clear();
        } else {
            add_part(place, next, &mut word, c)?;
        }
        place = next;
    }
    if let Place::Quoted = place {
        return Ok(None);
    }
    end_word(alloc, &mut words, place, word.as_str())?;
    Ok(Some(words))
}

// Where a reader stands after a character.
fn next_place(place: Place, quoted: bool, c: char) -> Place
    ensures { result ≡ next_place place quoted c }
{
    match place {
        Place::Quoted if c == '\'' => Place::Closing,
        Place::Quoted => Place::Quoted,
        _ => place_outside(quoted, c),
    }
}

// Where a reader stands after a character that it meets outside quotes.
fn place_outside(quoted: bool, c: char) -> Place
    ensures { result ≡ place_outside quoted c }
{
    if quoted && c == '\'' {
        Place::Quoted
    } else if c == ' ' || c == '\t' {
        Place::Between
    } else {
        Place::Inside
    }
}

fn is_between(place: Place) -> bool
    ensures { result ≡ is_between place }
{
    matches!(place, Place::Between)
}

// Whether the character that leads from one place to another is part of the word.
fn is_part(place: Place, next: Place) -> bool
    ensures { result ≡ is_part place next }
{
    matches!(
        (place, next),
        (Place::Quoted | Place::Closing, Place::Quoted) | (_, Place::Inside)
    )
}

// Adds a character to the word, where it is part of it.
fn add_part(place: Place, next: Place, word: &mut String, c: char) -> Result<(), Memory>
    ensures { OnOk result (
        string_bytes word.new ≡ with_part place next (string_bytes word.old) c) }
{
    if is_part(place, next) {
        word.push(c)?;
    }
    Ok(())
}

// Ends the word that has been read so far, where there is one.
fn end_word(alloc: Global, words: &mut TextList, place: Place, word: &str) -> Result<(), Memory>
    ensures { OnOk result (words.new ≡ words.old ++ word_at place word.now) }
{
    if is_between(place) {
        return Ok(());
    }
    words.push(Text::from_str(alloc, word)?)
}
