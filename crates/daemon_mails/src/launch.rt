use ad_value::Text;
use cases::escape;
use pool_outer::Launch;
use std::alloc::AllocError;
use std::fmt::Write;

/// Appends what is to be launched, each part behind a tab: the program, the folder, the files of
/// input, output and errors, how many words there are, and the words. Computes in O(bytes).
pub fn write_launch(launch: &Launch, out: &mut String) -> Result<(), AllocError> {
    write_field(&launch.program, out)?;
    write_field(&launch.folder, out)?;
    write_field(&launch.input, out)?;
    write_field(&launch.output, out)?;
    write_field(&launch.errors, out)?;
    let count = launch.words.len();
    write!(out, "\t{count}")?;
    for word in launch.words.as_slice() {
        write_field(word, out)?;
    }
    Ok(())
}

fn write_field(text: &Text, out: &mut String) -> Result<(), AllocError> {
    out.push('\t')?;
    escape(text.as_str(), out)
}
