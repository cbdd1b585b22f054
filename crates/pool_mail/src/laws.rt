//! What holds of every mail and of every job's ad.

ghost use Rattle.std.specs.Prelude.{◌≡◌, ℕ, List, true, false, None, Contains, IsSomeAnd};
ghost use Rattle.std.specs.List.{list_any};
ghost use Rattle.ad_value.specs.Names.{same_name};
ghost use Rattle.ad_value.specs.Groups.{run_names};
ghost use Rattle.ad_tree.specs.Ad.{Attributes, lookup};
ghost use Rattle.pool_outer.specs.declared.gate.Daemon.TheVariants.{Startd};
ghost use Rattle.pool_mail.specs.declared.mail.Mail.{Mail};
ghost use Rattle.pool_mail.specs.Ads.{request_ad};
ghost use Rattle.pool_mail.specs.Mails.{claim_of_mail, receivers_of};

/// A startd hears only of claims of its own machine's slots.
pub fn startds_hear_of_their_own_claims()
    ensures { (mail : Mail) (machine : ℕ) → Contains (receivers_of mail) (Startd machine)
        → IsSomeAnd (claim_of_mail mail) (λ claim. claim.slot.machine ≡ machine) }
{}

/// The ad that slots are judged with has nothing that a job has only while it runs.
pub fn request_ads_lack_run_names()
    ensures { (ad : Attributes) (name : List ℕ) → list_any (same_name name) run_names ≡ true
        → lookup name (request_ad ad) ≡ None }
{}

/// It has all else that the job's ad has.
pub fn request_ads_keep_the_rest()
    ensures { (ad : Attributes) (name : List ℕ) → list_any (same_name name) run_names ≡ false
        → lookup name (request_ad ad) ≡ lookup name ad }
{}
