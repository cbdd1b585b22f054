//! What holds of all texts, and of the order of jobs and slots.

ghost use Rattle.std.specs.Prelude.{◌≡◌, ◌<◌, ◌↔◌, ◌⊎◌, ◌||◌, ℕ, length};
ghost use Rattle.std.specs.Char.{is_ascii_digit};
ghost use Rattle.std.specs.Int.{is_in_range};
ghost use Rattle.std.specs.List.{AllPass};
ghost use Rattle.std.specs.declared.cmp.Ordering.TheVariants.{Less};
ghost use Rattle.claim_id.specs.declared.numbers.ClaimId.{ClaimId};
ghost use Rattle.claim_id.specs.declared.numbers.JobId.{JobId};
ghost use Rattle.claim_id.specs.declared.numbers.SlotId.{SlotId};
ghost use Rattle.claim_id.specs.Texts.{claim_text, job_text, secret_text, IsClaim, IsJob};

use crate::numbers::{JobId, SlotId};

/// Two claims with one text are equal.
pub fn claim_text_is_of_one_claim()
    ensures { (one other : ClaimId) → IsClaim one → IsClaim other
        → claim_text one ≡ claim_text other → one ≡ other }
{}

/// Two jobs with one text are equal.
pub fn job_text_is_of_one_job()
    ensures { (one other : JobId) → IsJob one → IsJob other
        → job_text one ≡ job_text other → one ≡ other }
{}

/// A secret has 16 digits: `0` to `9`, or `a` (97) to `f` (102).
pub fn secret_has_16_digits()
    ensures length { (secret : ℕ) → length (secret_text secret) ≡ 16 }
    ensures digits { (secret : ℕ)
        → AllPass (λ c. is_ascii_digit c || is_in_range 97 102 c) (secret_text secret) }
{}

/// Jobs stand in order of cluster, then of proc.
pub fn jobs_stand_by_cluster()
    ensures { (a b : JobId) → (⟦<JobId as Ord>⟧.cmp a b ≡ Less)
        ↔ ((a.cluster < b.cluster) ⊎ ((a.cluster ≡ b.cluster) × (a.proc < b.proc))) }
{}

/// Slots stand in order of machine, then of slot.
pub fn slots_stand_by_machine()
    ensures { (a b : SlotId) → (⟦<SlotId as Ord>⟧.cmp a b ≡ Less)
        ↔ ((a.machine < b.machine) ⊎ ((a.machine ≡ b.machine) × (a.slot < b.slot))) }
{}
