// How many printed bytes mails count.

ghost use Rattle.std.specs.Prelude.{◌≡◌, ◌+◌, min};
ghost use Rattle.pool_parts.specs.Sizes.{mail_count, mails_count};

use crate::size::add_ad;
use pool_mail::Mail;

fn add_mail(size: u64, mail: &Mail) -> u64
    ensures { result ≡ min (size + mail_count mail.now) u64.MAX }
{
    match mail {
        Mail::Update(slot) => add_ad(size, &slot.ad),
        Mail::Ask { ad, .. } => add_ad(size, ad),
        Mail::Activate { ad, .. } => add_ad(size, ad),
        _ => size,
    }
}

/// How many printed bytes the ads of mails count, without memory. Stops at 18446744073709551615.
/// Computes in O(size of the ads).
pub fn mails_size(mails: &[Mail]) -> u64
    ensures { result ≡ min (mails_count mails.now) u64.MAX }
{
    let mut size = 0;
    for mail in mails {
        size = add_mail(size, mail);
    }
    size
}
