// How many printed bytes ads count. Each function adds to a size, which stops at the greatest
// number of 64 bits.

ghost use Rattle.std.specs.Prelude.{◌≡◌, ◌+◌, min};
ghost use Rattle.pool_parts.specs.Sizes.{ad_count, ads_count};

use ad_parse::printed_size;
use ad_tree::Ad;

/// How many printed bytes of ads a pool may have.
pub const MAX_BYTES: u64 = 268_435_456;

/// How many printed bytes an ad counts: 1, and those of its names and of the canonical texts of its
/// expressions, without memory. Stops at 18446744073709551615. Computes in O(size of the ad).
pub fn ad_size(ad: &Ad) -> u64
    ensures { result ≡ min (ad_count ad.now) u64.MAX }
{
    printed_size(ad).saturating_add(1)
}

pub(crate) fn add_ad(size: u64, ad: &Ad) -> u64
    ensures { result ≡ min (size + ad_count ad.now) u64.MAX }
{
    size.saturating_add(ad_size(ad))
}

pub(crate) fn add_ads(size: u64, ads: &[Ad]) -> u64
    ensures { result ≡ min (size + ads_count ads.now) u64.MAX }
{
    let mut total = size;
    for ad in ads {
        total = add_ad(total, ad);
    }
    total
}
