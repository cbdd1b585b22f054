// How many bytes of ads a pool may have.

ghost use Rattle.std.specs.Prelude.{◌≡◌, ◌+◌, ◌<◌, ◌≤◌, IfErr, IfOk, OnErr};
ghost use Rattle.pool_parts.specs.Sizes.{mails_count};
ghost use Rattle.pool_parts.specs.declared.size.TheConstants.{MAX_BYTES};
ghost use Rattle.pool_tables.specs.declared.refusal.StepError.TheVariants as error;

use pool_mail::Mail;
use pool_parts::{MAX_BYTES, mails_size};
use pool_tables::StepError;

/// So many bytes of ads, where a pool may have them; else Bytes. Computes in O(1).
pub fn limited(bytes: u64) -> Result<u64, StepError>
    ensures same { IfOk result (λ all. all ≡ bytes) }
    ensures within { IfOk result (λ all. all ≤ MAX_BYTES) }
    ensures large { OnErr result (MAX_BYTES < bytes) }
    ensures refused { IfErr result (λ e. e ≡ error.Bytes) }
{
    if bytes > MAX_BYTES {
        return Err(StepError::Bytes);
    }
    Ok(bytes)
}

/// How many bytes of ads there are with those of mails, where a pool may have them; else Bytes.
/// Computes in O(size of the mails' ads), without memory.
pub fn bytes_with(bytes: u64, mails: &[Mail]) -> Result<u64, StepError>
    ensures sum { IfOk result (λ all. all ≡ bytes + mails_count mails.now) }
    ensures within { IfOk result (λ all. all ≤ MAX_BYTES) }
    ensures large { OnErr result (MAX_BYTES < bytes + mails_count mails.now) }
    ensures refused { IfErr result (λ e. e ≡ error.Bytes) }
{
    limited(bytes.saturating_add(mails_size(mails)))
}
