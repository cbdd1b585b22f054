ghost use Rattle.std.specs.Prelude.{◌≡◌, ◌≤◌, length};
ghost use Rattle.std.specs.List.{prefix_len};
ghost use Rattle.std.specs.Option.{option_map};
ghost use Rattle.submit_lines.specs.Names.{is_macro_byte, macro_name, after_name, is_plain_name, is_built_in, is_reserved, is_unsupported, is_in, is_variable, past_my};

use ad_token::{name_length, past_blanks};
use ad_value::names::is_run_name;
use ad_value::names::job::{CLUSTER_ID, JOB_STATUS, OWNER, PROC_ID, Q_DATE};

fn is_macro_byte(b: u8) -> bool
    ensures { result ≡ is_macro_byte b }
{
    b.is_ascii_alphabetic() || b == b'_' || b.is_ascii_digit() || b == b'.'
}

// How many bytes may stand in a macro's name, up to the first that may not.
fn name_run(bytes: &[u8]) -> usize
    ensures value { result ≡ prefix_len is_macro_byte bytes.now }
    ensures within { result ≤ length bytes.now }
{
    bytes.iter().take_while(|b| is_macro_byte(**b)).count()
}

/// The macro's name that a text begins with, perhaps empty, and the text after it and the blanks
/// that follow. Computes in O(bytes of both).
#[tactic(auto, using(crate::proofs::Boundaries::name_boundary))]
pub(crate) fn cut_name(text: &str) -> (&str, &str)
    ensures name { result.0.now ≡ macro_name text.now }
    ensures rest { result.1.now ≡ after_name text.now }
{
    let (name, rest) = text.split_at(name_run(text.as_bytes()));
    (name, past_blanks(rest))
}

// Whether a name is one of expressions: a letter or `_`, then letters, digits and `_`.
fn is_plain_name(name: &str) -> bool
    ensures { result ≡ is_plain_name name.now }
{
    !name.is_empty() && name_length(name.as_bytes()) == name.len()
}

/// Whether a name is that of a macro which each job has: Cluster, ClusterId, Process, ProcId,
/// without case. Computes in O(1).
#[tactic(auto, unfolding(crate::specs::Names::is_built_in))]
pub fn is_built_in(name: &str) -> bool
    ensures { result ≡ is_built_in name.now }
{
    name.eq_ignore_ascii_case("Cluster")
        || name.eq_ignore_ascii_case("ClusterId")
        || name.eq_ignore_ascii_case("Process")
        || name.eq_ignore_ascii_case("ProcId")
}

/// Whether an attribute is the pool's own, so that no line may set it. Computes in O(1).
#[tactic(auto, unfolding(crate::specs::Names::is_reserved))]
pub(crate) fn is_reserved(name: &str) -> bool
    ensures { result ≡ is_reserved name.now }
{
    name.eq_ignore_ascii_case(CLUSTER_ID)
        || name.eq_ignore_ascii_case(PROC_ID)
        || name.eq_ignore_ascii_case(OWNER)
        || name.eq_ignore_ascii_case(Q_DATE)
        || name.eq_ignore_ascii_case(JOB_STATUS)
        || is_run_name(name)
}

/// Whether a command is one that this pool has no use for. Computes in O(1).
#[tactic(auto, unfolding(crate::specs::Names::is_unsupported))]
pub(crate) fn is_unsupported(name: &str) -> bool
    ensures { result ≡ is_unsupported name.now }
{
    name.eq_ignore_ascii_case("environment")
        || name.eq_ignore_ascii_case("env")
        || name.eq_ignore_ascii_case("hold")
        || name.eq_ignore_ascii_case("docker_image")
        || name.eq_ignore_ascii_case("container_image")
}

/// Whether a word is `in`, without case. Computes in O(1).
pub(crate) fn is_in(word: &str) -> bool
    ensures { result ≡ is_in word.now }
{
    word.eq_ignore_ascii_case("in")
}

/// Whether a queue statement may call its items so. Computes in O(bytes).
pub(crate) fn is_variable(name: &str) -> bool
    ensures { result ≡ is_variable name.now }
{
    is_plain_name(name) && !is_in(name) && !is_built_in(name)
}

/// What follows `MY.`, without case, where a name begins so. Computes in O(1).
pub(crate) fn past_my(name: &str) -> Option<&str>
    ensures { option_map (λ n. n.now) result ≡ past_my name.now }
{
    match name.split_once('.') {
        Some((prefix, rest)) if prefix.eq_ignore_ascii_case("MY") => Some(rest),
        _ => None,
    }
}
