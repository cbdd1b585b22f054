//! What holds of every submit file.

ghost use Rattle.std.specs.Prelude.{◌≡◌, ◌<◌, ◌^◌, ℕ, List, Ok, true};
ghost use Rattle.ad_value.specs.Content.{text};
ghost use Rattle.ad_tree.specs.Ad.{Attributes};
ghost use Rattle.ad_token.specs.Names.{is_name};
ghost use Rattle.ad_parse.specs.ValueText.{HasReadableLiteral};
ghost use Rattle.ad_rows.specs.Submitted.{AreSubmitted};
ghost use Rattle.submit_file.specs.OneJob.{Common};
ghost use Rattle.submit_file.specs.OtherReadings.{at_reading, HaveOneResult};
ghost use Rattle.submit_file.specs.SubmittedJobs.{AdsResult, SubmittedJobs};

/// A file has one result, for a cluster, an owner and a reading.
pub fn submitted_jobs_are_one()
    ensures { (text : List ℕ) (heading : Common) (one other : AdsResult)
        → SubmittedJobs text heading one → SubmittedJobs text heading other → one ≡ other }
{}

/// The reading at which a file is submitted changes neither whether it is refused nor why, nor how
/// many jobs there are, nor what their ads say but for QDate.
pub fn readings_change_only_the_date()
    ensures { (text : List ℕ) (heading : Common) (reading : ℕ) (one other : AdsResult)
        → SubmittedJobs text heading one
        → SubmittedJobs text (at_reading reading heading) other → HaveOneResult one other }
{}

/// The ads of a file's jobs, which are numbered from 0, meet what is asked of a submission, where
/// the owner is a name, or any other text whose string can be written down and read again.
pub fn jobs_are_submitted()
    ensures readable { (bytes : List ℕ) (heading : Common) (ads : List Attributes)
        → heading.cluster < 2 ^ 63 → heading.now < 2 ^ 63
        → HasReadableLiteral (text heading.owner)
        → SubmittedJobs bytes heading (Ok ads) → AreSubmitted heading.cluster 0 ads }
    ensures named { (bytes : List ℕ) (heading : Common) (ads : List Attributes)
        → heading.cluster < 2 ^ 63 → heading.now < 2 ^ 63 → is_name heading.owner ≡ true
        → SubmittedJobs bytes heading (Ok ads) → AreSubmitted heading.cluster 0 ads }
{}
