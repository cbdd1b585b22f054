ghost use Rattle.submit_file.specs.Errors.{UnlessMemory, Replaced};

use crate::error::SubmitError;
use ad_value::Text;
use line_text::{MacroError, MacroTable, expand};
use std::alloc::Global;

/// A text of a line with its macros replaced, or why they can't be. Computes in O(bytes of the
/// text, of the table and of what is written) where names do not collide.
pub fn expand_at(
    alloc: Global,
    text: &str,
    table: &MacroTable,
    line: u32,
) -> Result<Text, SubmitError>
    ensures { UnlessMemory (Replaced table.now text.now line) result }
{
    match expand(alloc, text, table) {
        Ok(text) => Ok(text),
        Err(MacroError::Memory) => Err(SubmitError::Memory),
        Err(MacroError::Bad { at }) => Err(SubmitError::Macro {
            line,
            error: MacroError::Bad { at },
        }),
        Err(MacroError::Circular { name }) => Err(SubmitError::Macro {
            line,
            error: MacroError::Circular { name },
        }),
        Err(MacroError::TooLong { length }) => Err(SubmitError::Macro {
            line,
            error: MacroError::TooLong { length },
        }),
    }
}
