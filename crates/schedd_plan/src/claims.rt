// The claims that the schedd has asked for.

ghost use Rattle.std.specs.Prelude.{◌≡◌};
ghost use Rattle.schedd_plan.specs.KeptClaims.{is_active, is_claim, names_job, place_of_claim, engages, with_stage, with_job, claims_without};

use ad_tree::Ad;
use ad_value::{Copied, Memory};
use claim_id::{ClaimId, ClaimNo, JobId};
use std::alloc::Global;

/// How far a claim has come.
#[derive(Clone, Copy)]
pub enum Stage {
    /// It was asked for, at that reading.
    Asked { at: u64 },
    /// It is there.
    Ready,
    /// It is to be given up once no job is under it.
    Leaving,
}

/// A claim that the schedd keeps.
pub struct KeptClaim {
    pub claim: ClaimId,
    /// The job that it was asked for, or that it last ran.
    pub job: JobId,
    pub stage: Stage,
    /// The ad of its first job: the one that it was asked for, or that was under it when the schedd
    /// came back.
    pub ad: Ad,
}

impl Drop for KeptClaim {
    fn drop(self) {
        let KeptClaim {
            claim: _,
            job: _,
            stage: _,
            ad: _ad,
        } = self;
    }
}

impl Copied for KeptClaim {
    /// An equal claim, whose ad shares its attributes. Computes in O(attributes).
    fn copy(&self, alloc: Global) -> Result<KeptClaim, Memory> {
        Ok(KeptClaim {
            claim: self.claim,
            job: self.job,
            stage: self.stage,
            ad: self.ad.copy(alloc)?,
        })
    }
}

fn is_active(stage: Stage) -> bool
    ensures { result ≡ is_active stage }
{
    match stage {
        Stage::Asked { .. } | Stage::Ready => true,
        Stage::Leaving => false,
    }
}

fn is_claim(kept: &KeptClaim, no: ClaimNo) -> bool
    ensures { result ≡ is_claim no kept.now }
{
    kept.claim.no == no
}

fn names_job(kept: &KeptClaim, job: JobId) -> bool
    ensures { result ≡ names_job job kept.now }
{
    is_active(kept.stage) && kept.job == job
}

/// The place of a claim, by its number. Computes in O(claims), without memory.
pub fn place_of_claim(claims: &[KeptClaim], no: ClaimNo) -> Option<usize>
    ensures { result ≡ place_of_claim no claims.now }
{
    claims.iter().position(|kept| is_claim(kept, no))
}

/// Whether a claim that is asked for or ready names the job. Computes in O(claims), without
/// memory.
pub fn engages(claims: &[KeptClaim], job: JobId) -> bool
    ensures { result ≡ engages job claims.now }
{
    claims.iter().any(|kept| names_job(kept, job))
}

/// The claim of a place has come so far. Computes in O(1).
pub fn set_stage(claims: &mut Vec<KeptClaim>, place: usize, stage: Stage)
    ensures { claims.new.items ≡ with_stage place stage claims.old.items }
{
    if let Some(kept) = claims.get_mut(place) {
        kept.stage = stage;
    }
}

/// The claim of a place names the job. Computes in O(1).
pub fn set_job(claims: &mut Vec<KeptClaim>, place: usize, job: JobId)
    ensures { claims.new.items ≡ with_job place job claims.old.items }
{
    if let Some(kept) = claims.get_mut(place) {
        kept.job = job;
    }
}

/// The claim of a place goes. Computes in O(claims).
pub fn remove_claim(claims: &mut Vec<KeptClaim>, place: usize)
    ensures { claims.new.items ≡ claims_without place claims.old.items }
{
    if place < claims.len() {
        let _gone = claims.remove(place);
    }
}
