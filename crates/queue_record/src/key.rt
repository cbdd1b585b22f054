// The text of a key.

ghost use Rattle.std.specs.Prelude.{◌≡◌, OnOk};
ghost use Rattle.ad_value.specs.Writing.{AddsText};
ghost use Rattle.queue_record.specs.Keys.{key_text, key_at};

use claim_id::JobId;
use queue_tx::Key;
use std::alloc::AllocError;
use std::fmt::Write;

// The key that a word is: `0.0`, or `C.P` with a cluster from 1.
pub(crate) fn key_of(word: &str) -> Option<Key>
    ensures { result ≡ key_at word.now }
{
    if word == "0.0" {
        return Some(Key::Header);
    }
    match JobId::read(word) {
        Ok(job) => Some(Key::Proc(job)),
        Err(_) => None,
    }
}

// Writes a key.
#[tactic(auto, unfolding(claim_id::specs::Texts::job_text))]
pub(crate) fn write_key(text: &mut String, key: Key) -> Result<(), AllocError>
    ensures { OnOk result (AddsText text.old text.new (key_text key)) }
{
    match key {
        Key::Header => text.push_str("0.0"),
        Key::Proc(JobId { cluster, proc }) => write!(text, "{cluster}.{proc}"),
    }
}
