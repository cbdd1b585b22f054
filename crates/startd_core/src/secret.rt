ghost use Rattle.std.specs.Prelude.{◌≡◌};
ghost use Rattle.startd_core.specs.Secrets.{secret_of, seed_of, secret_word};

use rand_chacha::ChaCha20Rng;
use rand_core::SeedableRng;
use rand_core::utils::NextWord;

/// The secret of a machine's offer, counted from 0 over all its boots: the words `2 * offer` (the
/// upper half) and the next one of ChaCha20, whose key is the secret key in little-endian order and
/// 24 zero bytes, and whose stream is the machine's number. Computes in O(1), without memory.
#[tactic(auto, unfolding(crate::specs::Secrets::secret_of))]
pub fn secret_of(secret_key: u64, machine: u16, offer: u64) -> u64
    ensures { result ≡ secret_of secret_key machine offer }
{
    let high = secret_word(secret_key, machine, u128::from(offer) * 2);
    let low = secret_word(secret_key, machine, u128::from(offer) * 2 + 1);
    u64::from(high) * 4_294_967_296 + u64::from(low)
}

fn secret_word(secret_key: u64, machine: u16, place: u128) -> u32
    ensures { result ≡ secret_word secret_key machine place }
{
    let mut words = ChaCha20Rng::from_seed(seed_of(secret_key));
    words.set_stream(u64::from(machine));
    words.set_word_pos(place);
    words.next_word()
}

#[tactic(auto, unfolding(crate::specs::Secrets::seed_of))]
fn seed_of(secret_key: u64) -> [u8; 32]
    ensures { result ≡ seed_of secret_key }
{
    let key = secret_key.to_le_bytes();
    [
        key[0], key[1], key[2], key[3], key[4], key[5], key[6], key[7], 0, 0, 0, 0, 0, 0, 0, 0, 0,
        0, 0, 0, 0, 0, 0, 0, 0, 0, 0, 0, 0, 0, 0, 0,
    ]
}
