ghost use Rattle.std.specs.Prelude.{◌≡◌, IfOk};
ghost use Rattle.job_launch.specs.Launches.{launch_of, launch_words, literal_string, words_under};

use ad_tree::{Ad, Expr};
use ad_value::names::job::{ARGS, ARGUMENTS, CMD, ERR, IN, IWD, OUT};
use ad_value::{Memory, Text, TextList, Value};
use line_text::arg_words;
use pool_outer::Launch;
use std::alloc::Global;

/// What a job is started with, of its ad (HTCondor manual, Job ClassAd Attributes, Cmd, Iwd, In,
/// Out, Err, Arguments and Args). Its words are those of Arguments where the ad has that attribute,
/// whatever it is, and else those of Args. An attribute that is not there, or is no literal string,
/// counts as empty, and so does an Arguments of which a single quote is not closed. Computes in
/// O(bytes of what is read), where names do not collide.
pub fn launch_of(alloc: Global, ad: &Ad) -> Result<Launch, Memory>
    ensures { IfOk result (λ l. l ≡ launch_of ad.now) }
{
    Ok(Launch {
        program: text_under(alloc, ad, CMD)?,
        words: launch_words(alloc, ad)?,
        folder: text_under(alloc, ad, IWD)?,
        input: text_under(alloc, ad, IN)?,
        output: text_under(alloc, ad, OUT)?,
        errors: text_under(alloc, ad, ERR)?,
    })
}

// A copy of the literal string under a name.
fn text_under(alloc: Global, ad: &Ad, name: &str) -> Result<Text, Memory>
    ensures { IfOk result (λ t. t ≡ literal_string ad.now name.now) }
{
    Text::from_str(alloc, literal_string(ad, name))
}

// The literal string under a name, empty where there is none.
fn literal_string<'a>(ad: &'a Ad, name: &str) -> &'a str
    ensures { result.now ≡ literal_string ad.now name.now }
{
    match ad.get(name) {
        Some(Expr::Lit(Value::Str(text))) => text.as_str(),
        _ => "",
    }
}

// The words of Arguments where the ad has it, else of Args.
fn launch_words(alloc: Global, ad: &Ad) -> Result<TextList, Memory>
    ensures { IfOk result (λ words. words ≡ launch_words ad.now) }
{
    if ad.get(ARGUMENTS).is_some() {
        words_under(alloc, ad, ARGUMENTS, true)
    } else {
        words_under(alloc, ad, ARGS, false)
    }
}

// The words of the literal string under a name, none where a single quote is not closed.
fn words_under(alloc: Global, ad: &Ad, name: &str, quoted: bool) -> Result<TextList, Memory>
    ensures { IfOk result (λ words. words ≡ words_under ad.now name.now quoted) }
{
    match arg_words(alloc, literal_string(ad, name), quoted)? {
        Some(words) => Ok(words),
        None => Ok(TextList::new(alloc)),
    }
}
