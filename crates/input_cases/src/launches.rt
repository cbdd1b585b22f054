use ad_parse::{AdError, parse_ad};
use ad_tree::Ad;
use ad_value::{Memory, Text};
use cases::{Case, CaseError, escape};
use job_launch::launch_of;
use pool_outer::Launch;
use std::alloc::{AllocError, Global};

/// What a job is started with: `launch AD`.
pub(crate) fn answer_launch(
    alloc: Global,
    case: Case<'_>,
    out: &mut String,
) -> Result<(), CaseError> {
    let text = case.text(alloc, case.one_field()?)?;
    match parse_ad(alloc, text.as_str()) {
        Ok(ad) => Ok(write_launch_of(alloc, &ad, out)?),
        Err(AdError::Memory) => Err(CaseError::Memory),
        Err(_) => Err(CaseError::Form { line: case.line }),
    }
}

fn write_launch_of(alloc: Global, ad: &Ad, out: &mut String) -> Result<(), AllocError> {
    match launch_of(alloc, ad) {
        Ok(launch) => write_launch(&launch, out),
        Err(Memory) => Err(AllocError),
    }
}

fn write_launch(launch: &Launch, out: &mut String) -> Result<(), AllocError> {
    out.push_str("ok")?;
    write_field(&launch.program, out)?;
    write_field(&launch.folder, out)?;
    write_field(&launch.input, out)?;
    write_field(&launch.output, out)?;
    write_field(&launch.errors, out)?;
    for word in launch.words.as_slice() {
        write_field(word, out)?;
    }
    Ok(())
}

fn write_field(text: &Text, out: &mut String) -> Result<(), AllocError> {
    out.push('\t')?;
    escape(text.as_str(), out)
}
