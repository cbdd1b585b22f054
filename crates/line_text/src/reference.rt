// References in a text.

ghost use Rattle.std.specs.Prelude.{◌≡◌, ◌≤◌, length};
ghost use Rattle.std.specs.List.{prefix_len};
ghost use Rattle.std.specs.Prelude.{slice_index};
ghost use Rattle.ad_token.specs.Names.{is_letter};
ghost use Rattle.line_text.specs.References.{is_name_byte, letters_after, begins_reference, stretch_length, stretch, past_stretch, before_close, with_default, after_name, after_open, reference_at};
ghost use Rattle.line_text.specs.Next.{reference_of};

/// What stands where plain text ends.
#[derive(Clone, Copy)]
pub enum Next<'a> {
    /// Nothing.
    End,
    /// A `$` that begins a reference that is none.
    Bad,
    /// A reference, and the rest of the text after it.
    Reference {
        name: &'a str,
        /// The text that is put in where the name is not set; empty where none is written.
        default: &'a str,
        rest: &'a str,
    },
}

/// The plain text that a text begins with, and the text after it. Computes in O(bytes of the plain
/// text and of the reference after it).
#[tactic(auto, using(crate::proofs::Boundaries::stretch_boundary))]
pub fn cut(text: &str) -> (&str, &str)
    ensures stretch { result.0.now ≡ stretch text.now }
    ensures rest { result.1.now ≡ past_stretch text.now }
{
    text.split_at(stretch_length(text.as_bytes()))
}

// How many bytes of plain text stand before the first reference.
fn stretch_length(bytes: &[u8]) -> usize
    ensures value { result ≡ stretch_length bytes.now }
    ensures within { result ≤ length bytes.now }
{
    let mut at = 0;
    while at < bytes.len() {
        if begins_reference(&bytes[at..]) {
            return at;
        }
        at += 1;
    }
    at
}

// The byte at a place, or 0.
fn byte_at(bytes: &[u8], place: usize) -> u8
    ensures { result ≡ slice_index bytes.now place }
{
    bytes.get(place).copied().unwrap_or(0)
}

// How many letters or `_` stand after the first byte.
fn letters_after(bytes: &[u8]) -> usize
    ensures value { result ≡ letters_after bytes.now }
    ensures within { result ≤ length bytes.now }
{
    bytes.iter().skip(1).take_while(|b| is_letter(**b)).count()
}

// Whether a reference, good or bad, begins here: `$(`, `$$(`, or `$`, letters and `(`.
#[tactic(auto, unfolding(crate::specs::References::begins_reference))]
fn begins_reference(bytes: &[u8]) -> bool
    ensures { result ≡ begins_reference bytes.now }
{
    if byte_at(bytes, 0) != b'$' {
        return false;
    }
    let letters = letters_after(bytes);
    byte_at(bytes, 1) == b'('
        || (byte_at(bytes, 1) == b'$' && byte_at(bytes, 2) == b'(')
        || (letters > 0 && byte_at(bytes, 1 + letters) == b'(')
}

/// The reference that a text begins with, where one begins. Computes in O(bytes of the reference).
#[tactic(auto, unfolding(crate::specs::References::reference_at))]
pub fn reference(text: &str) -> Next<'_>
    ensures { reference_of result ≡ reference_at text.now }
{
    let bytes = text.as_bytes();
    if bytes.is_empty() {
        return Next::End;
    }
    if byte_at(bytes, 1) != b'(' {
        return Next::Bad;
    }
    #[tactic(auto, using(crate::proofs::Boundaries::past_open))]
    let inner = &text[2..];
    after_open(inner)
}

// The reference of which `$(` was read.
#[tactic(auto, using(crate::proofs::Boundaries::name_boundary))]
fn after_open(text: &str) -> Next<'_>
    ensures { reference_of result ≡ after_open text.now }
{
    let (name, after) = text.split_at(name_length(text.as_bytes()));
    if name.is_empty() {
        return Next::Bad;
    }
    after_name(name, after)
}

// The reference of which the name was read, with what stands after it.
#[tactic(auto, using(crate::proofs::Boundaries::past_first))]
fn after_name<'a>(name: &'a str, after: &'a str) -> Next<'a>
    ensures { reference_of result ≡ after_name name.now after.now }
{
    if after.starts_with(')') {
        return Next::Reference {
            name,
            default: "",
            rest: &after[1..],
        };
    }
    if after.starts_with(':') {
        return with_default(name, &after[1..]);
    }
    Next::Bad
}

// The reference with a default text, which ends at the first `)`.
fn with_default<'a>(name: &'a str, after: &'a str) -> Next<'a>
    ensures { reference_of result ≡ with_default name.now after.now }
{
    let close = before_close(after.as_bytes());
    if close == after.len() {
        return Next::Bad;
    }
    #[tactic(auto, using(crate::proofs::Boundaries::close_boundary))]
    let default = &after[..close];
    #[tactic(auto, using(crate::proofs::Boundaries::past_close))]
    let rest = &after[close + 1..];
    Next::Reference {
        name,
        default,
        rest,
    }
}

// How many bytes stand before the first `)`.
fn before_close(bytes: &[u8]) -> usize
    ensures value { result ≡ before_close bytes.now }
    ensures within { result ≤ length bytes.now }
{
    bytes.iter().take_while(|b| **b != b')').count()
}

// How many bytes may stand in a macro's name, up to the first that may not.
fn name_length(bytes: &[u8]) -> usize
    ensures value { result ≡ prefix_len is_name_byte bytes.now }
    ensures within { result ≤ length bytes.now }
{
    bytes.iter().take_while(|b| is_name_byte(**b)).count()
}

// Whether a byte may stand in a macro's name.
fn is_name_byte(b: u8) -> bool
    ensures { result ≡ is_name_byte b }
{
    is_letter(b) || b.is_ascii_digit() || b == b'.'
}

// Whether a byte is a letter or `_`.
fn is_letter(b: u8) -> bool
    ensures { result ≡ is_letter b }
{
    b.is_ascii_alphabetic() || b == b'_'
}
