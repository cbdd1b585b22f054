use crate::lines::write_key;
use crate::queues::{ad_of, changed_queue, write_cause};
use ad_tree::Ad;
use cases::{Case, CaseError};
use queue_tx::Queue;
use std::alloc::{AllocError, Global};
use std::ops::Bound;

/// Which idle jobs make the same request as an ad, in a queue once operations were done:
/// `asking AD COUNT KEYAD .. OP ..`.
pub(crate) fn answer_asking(
    alloc: Global,
    case: Case<'_>,
    out: &mut String,
) -> Result<(), CaseError> {
    let fields = case.all_fields(alloc)?;
    let Some((ad, rest)) = fields.as_slice().split_first() else {
        return Err(CaseError::Fields { line: case.line });
    };
    let text = case.text(alloc, ad)?;
    let ad = ad_of(alloc, case, text.as_str())?;
    match changed_queue(alloc, case, rest)? {
        Ok(queue) => {
            out.push_str("ok")?;
            write_asking(&queue, &ad, out)?;
        }
        Err(error) => write_cause(error, out)?,
    }
    Ok(())
}

fn write_asking(queue: &Queue, ad: &Ad, out: &mut String) -> Result<(), AllocError> {
    let mut next = queue.first_asking(ad, Bound::Unbounded).copied();
    for _ in 0..u64::MAX {
        let Some(key) = next else {
            break;
        };
        out.push('\t')?;
        write_key(key, out)?;
        next = queue.first_asking(ad, Bound::Excluded(&key)).copied();
    }
    Ok(())
}
