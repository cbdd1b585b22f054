//! What holds of every launch, in the words of the subject.

ghost use Rattle.std.specs.Prelude.{◌≡◌, ◌==◌, ◌+◌, ◌*◌, ℕ, false, List, [], map, chars, Some, None, IsSome};
ghost use Rattle.std.specs.List.{count_by, list_any};
ghost use Rattle.ad_value.specs.Bytes.{code};
ghost use Rattle.ad_value.specs.Content.{text};
ghost use Rattle.ad_value.specs.Names.{same_name};
ghost use Rattle.ad_value.specs.declared.names.job.TheConstants.{ARGS, ARGUMENTS};
ghost use Rattle.ad_tree.specs.Ad.{Attributes, lookup, with_attribute, without};
ghost use Rattle.ad_tree.specs.Tree.{Tree, literal};
ghost use Rattle.line_text.specs.Quoting.{quoted_words, word_bytes};
ghost use Rattle.job_launch.specs.Launches.{launch_names, launch_of, literal_string};

/// An attribute that no launch is made of changes nothing: neither what it is, nor whether it is
/// there. Such are all that the pool sets while a job runs.
pub fn other_attributes_change_nothing()
    ensures set { (ad : Attributes) (name : List ℕ) (e : Tree)
        → list_any (same_name name) launch_names ≡ false
        → launch_of (with_attribute name e ad) ≡ launch_of ad }
    ensures removed { (ad : Attributes) (name : List ℕ)
        → list_any (same_name name) launch_names ≡ false
        → launch_of (without name ad) ≡ launch_of ad }
{}

/// Where an ad has Arguments, even one that counts as empty, Args changes nothing.
pub fn arguments_go_before_args()
    ensures set { (ad : Attributes) (e : Tree)
        → IsSome (lookup ARGUMENTS.now ad)
        → launch_of (with_attribute ARGS.now e ad) ≡ launch_of ad }
    ensures removed { (ad : Attributes)
        → IsSome (lookup ARGUMENTS.now ad)
        → launch_of (without ARGS.now ad) ≡ launch_of ad }
{}

/// A job with neither Arguments nor Args gets no words, nor one whose Arguments counts as empty,
/// whatever its Args is.
pub fn no_arguments_are_no_words()
    ensures absent { (ad : Attributes)
        → lookup ARGUMENTS.now ad ≡ None → lookup ARGS.now ad ≡ None
        → (launch_of ad).words ≡ [] }
    ensures empty { (ad : Attributes)
        → IsSome (lookup ARGUMENTS.now ad) → literal_string ad ARGUMENTS.now ≡ []
        → (launch_of ad).words ≡ [] }
{}

/// An odd number of single quotes in Arguments leaves one that is not closed: no words.
pub fn unclosed_quotes_are_no_words()
    ensures { (ad : Attributes) (line : List ℕ) (n : ℕ)
        → lookup ARGUMENTS.now ad ≡ Some (literal (text line))
        → count_by (λ c. c == code "'") (chars line) ≡ 2 * n + 1
        → (launch_of ad).words ≡ [] }
{}

/// Words that stand in Arguments in single quotes, with each quote in them twice, reach the program
/// as they are.
pub fn quoted_words_reach_the_program()
    ensures { (ad : Attributes) (words : List (List ℕ)) (line : List ℕ)
        → lookup ARGUMENTS.now ad ≡ Some (literal (text line)) → chars line ≡ quoted_words words
        → (launch_of ad).words ≡ map word_bytes words }
{}
