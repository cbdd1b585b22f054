//! What holds of all scripts and loads.

ghost use Rattle.std.specs.Prelude.{◌≡◌, ◌↔◌, ◌⊎◌, ◌<◌, ◌≤◌, ◌^◌, ℕ, List, length, Some, slice_get};
ghost use Rattle.ad_parse.specs.ValueText.{HasReadableLiteral};
ghost use Rattle.ad_value.specs.Content.{text};
ghost use Rattle.ad_rows.specs.Submitted.{AreSubmitted};
ghost use Rattle.line_text.specs.declared.logical.Line.{Line};
ghost use Rattle.line_text.specs.Lines.{logical_lines};
ghost use Rattle.pool_outer.specs.declared.clock.TheConstants.{LAST_READING};
ghost use Rattle.script_plan.specs.declared.entry.Entry.{Entry};
ghost use Rattle.script_plan.specs.declared.script.Script.{Script};
ghost use Rattle.script_plan.specs.Loads.{load_ads, job_of_load};
ghost use Rattle.script_plan.specs.Scripts.{LineSays, IsScript, IsFirstBad};

/// A line says one thing.
pub fn line_says_one_thing()
    ensures { (machines : List (List ℕ)) (line : Line) (one other : Entry)
        → LineSays machines line one → LineSays machines line other → one ≡ other }
{}

/// A text is one script.
pub fn text_is_one_script()
    ensures { (machines : List (List ℕ)) (text : List ℕ) (one other : Script)
        → IsScript machines text one → IsScript machines text other → one ≡ other }
{}

/// A text that is a script is not refused as none.
pub fn scripts_are_not_refused()
    ensures { (machines : List (List ℕ)) (text : List ℕ) (script : Script) (line : ℕ)
        → IsScript machines text script → ¬ IsFirstBad machines (logical_lines text) line }
{}

/// A load has as many jobs as it says, numbered from 0.
pub fn load_has_its_jobs()
    ensures count { (number cluster now jobs : ℕ) (owner : List ℕ)
        → length (load_ads number cluster owner now jobs) ≡ jobs }
    ensures each { (number cluster now jobs proc : ℕ) (owner : List ℕ) → proc < jobs
        → slice_get (load_ads number cluster owner now jobs) proc
        ≡ Some (job_of_load number cluster owner now proc) }
{}

/// The ads of a load's jobs, which are numbered from 0, meet what is asked of a submission exactly
/// where there are none, or where the owner is a text whose string can be written down and read
/// again; each name is one.
pub fn jobs_of_a_load_are_submitted()
    ensures { (number cluster now jobs : ℕ) (owner : List ℕ)
        → cluster < 2 ^ 32 → jobs < 2 ^ 32 → now ≤ LAST_READING
        → AreSubmitted cluster 0 (load_ads number cluster owner now jobs)
        ↔ ((jobs ≡ 0) ⊎ HasReadableLiteral (text owner)) }
{}
