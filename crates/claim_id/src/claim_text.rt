ghost use Rattle.std.specs.Prelude.{◌≡◌, ◌↔◌, ◌<◌, ◌^◌, ◌++◌, ◌∷◌, ℕ, List, IfOk, IfSome, IsSomeAnd, IsTrue};
ghost use Rattle.claim_id.specs.declared.numbers.ClaimId.{ClaimId};
ghost use Rattle.claim_id.specs.declared.numbers.ClaimNo.{ClaimNo};
ghost use Rattle.claim_id.specs.declared.numbers.SlotId.{SlotId};
ghost use Rattle.claim_id.specs.Texts.{claim_text, claim_no_text, slot_text, secret_text, IsClaim, IsClaimNo, IsSlot};

use crate::number::{after_mark, number_before};
use crate::numbers::{ClaimId, ClaimNo, SlotId};
use ad_value::{Memory, Text};
use hex::FromHex;
use std::alloc::Global;
use thiserror::Error;

/// A text that is no claim's.
#[derive(Clone, Copy, Debug, Error)]
#[error("not a claim, as <0:1>#4294967297#7#00000000000000ff is one")]
pub struct NotAClaim;

impl ClaimId {
    /// The claim's text, `<MACHINE:SLOT>#BOOT#SEQ#SECRET`. Computes in O(1).
    pub fn print(&self, alloc: Global) -> Result<Text, Memory>
        ensures { IfOk result (λ text. text ≡ claim_text self.now) }
    {
        let ClaimNo { slot, boot, seq } = self.no;
        let SlotId { machine, slot } = slot;
        let secret = hex::encode(alloc, self.secret.to_be_bytes())?;
        Ok(Text::from(format!(in alloc; "<{machine}:{slot}>#{boot}#{seq}#{secret}")?))
    }

    /// The claim whose text this is, `NotAClaim` exactly where there is none. Computes in O(bytes),
    /// without memory.
    pub fn read(text: &str) -> Result<ClaimId, NotAClaim>
        ensures { (claim : ClaimId) → (result ≡ Ok claim)
            ↔ (IsClaim claim × (text.now ≡ claim_text claim)) }
    {
        claim_of(text).ok_or(NotAClaim)
    }
}

// The claim whose text this is.
#[tactic(auto, unfolding(crate::specs::Texts::claim_text))]
fn claim_of(text: &str) -> Option<ClaimId>
    ensures found { IfSome result (λ claim. IsClaim claim × (text.now ≡ claim_text claim)) }
    ensures only { (claim : ClaimId) → IsClaim claim → text.now ≡ claim_text claim
        → result ≡ Some claim }
{
    let (no, rest) = claim_no_before(text)?;
    let secret = secret_of(rest)?;
    Some(ClaimId { no, secret })
}

// The claim's number that a text begins with, and what follows the `#` (35) behind it.
#[tactic(auto, unfolding(crate::specs::Texts::claim_no_text))]
fn claim_no_before(text: &str) -> Option<(ClaimNo, &str)>
    ensures found { IfSome result (λ p. IsClaimNo p.0
        × (text.now ≡ claim_no_text p.0 ++ 35 ∷ p.1.now)) }
    ensures only { (c : ClaimNo) (rest : List ℕ) → IsClaimNo c
        → text.now ≡ claim_no_text c ++ 35 ∷ rest
        → IsSomeAnd result (λ p. (p.0 ≡ c) × (p.1.now ≡ rest)) }
{
    let (slot, rest) = slot_before(text)?;
    let rest = after_mark(rest, '#')?;
    let (boot, rest) = number_before(rest, '#')?;
    let (seq, rest) = number_before(rest, '#')?;
    Some((ClaimNo { slot, boot, seq }, rest))
}

// The slot that a text begins with, and what follows it.
#[tactic(auto, unfolding(crate::specs::Texts::slot_text))]
fn slot_before(text: &str) -> Option<(SlotId, &str)>
    ensures found { IfSome result (λ p. IsSlot p.0 × (text.now ≡ slot_text p.0 ++ p.1.now)) }
    ensures only { (s : SlotId) (rest : List ℕ) → IsSlot s → text.now ≡ slot_text s ++ rest
        → IsSomeAnd result (λ p. (p.0 ≡ s) × (p.1.now ≡ rest)) }
{
    let rest = after_mark(text, '<')?;
    let (machine, rest) = number_before(rest, ':')?;
    let (slot, rest) = number_before(rest, '>')?;
    Some((slot_id(machine, slot)?, rest))
}

// The slot of these numbers, where they are in their ranges.
fn slot_id(machine: u64, slot: u64) -> Option<SlotId>
    ensures { (s : SlotId) → (result ≡ Some s)
        ↔ (IsSlot s × (machine ≡ s.machine) × (slot ≡ s.slot)) }
{
    if slot == 0 {
        return None;
    }
    Some(SlotId {
        machine: u16::try_from(machine).ok()?,
        slot: u16::try_from(slot).ok()?,
    })
}

// The secret whose text this is.
fn secret_of(text: &str) -> Option<u64>
    ensures found { IfSome result (λ secret. text.now ≡ secret_text secret) }
    ensures only { (secret : ℕ) → secret < 2 ^ 64 → text.now ≡ secret_text secret
        → result ≡ Some secret }
{
    let bytes = <[u8; 8]>::from_hex(text).ok()?;
    let secret = u64::from_be_bytes(bytes);
    if is_secret(text, secret) {
        Some(secret)
    } else {
        None
    }
}

// Whether a text is that secret's, in lower case.
#[tactic(auto, unfolding(crate::specs::Texts::secret_text))]
fn is_secret(text: &str, secret: u64) -> bool
    ensures { IsTrue result ↔ (text.now ≡ secret_text secret) }
{
    let mut digits = [0; 16];
    hex::encode_to_slice(secret.to_be_bytes(), &mut digits).is_ok()
        && digits.as_slice() == text.as_bytes()
}
