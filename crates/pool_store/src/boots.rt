ghost use Rattle.std.specs.Prelude.{◌≡◌, ◌+◌, ◌<◌, ◌^◌, length, IfOk, IfErr};
ghost use Rattle.pool_store.specs.Boots.{SaysBoots, next_boot, with_number};
ghost use Rattle.pool_store.specs.BadNumbers.{IsRefused};

use crate::error::BootError;
use crate::line::{boot_in, line_before};

/// The greatest number of a boot.
pub const LAST_BOOT: u32 = 2_147_483_647;

/// What a file of boots says.
#[derive(Clone, Copy)]
pub struct Boots {
    /// The largest number of its whole lines; none where it has no whole line.
    pub largest: Option<u32>,
    /// How many bytes its whole lines have. What stands behind them is the torn tail of a line that
    /// was not written to its end: it says nothing, and is to be cut before a line is appended.
    pub whole: u64,
}

impl Boots {
    /// The number of the next boot: one more than the largest, or 1. None exactly where that would
    /// be above `LAST_BOOT`. Computes in O(1).
    pub fn next(&self) -> Option<u32>
        ensures { result ≡ next_boot self.now.largest }
    {
        match self.largest {
            None => Some(1),
            Some(number) if number < LAST_BOOT => Some(number + 1),
            Some(_) => None,
        }
    }

    // Goes on past a line.
    fn add(&mut self, number: u32, length: usize)
        requires { self.old.whole + length < 2 ^ 63 }
        ensures largest { self.new.largest ≡ with_number self.old.largest number }
        ensures whole { self.new.whole ≡ self.old.whole + (length + 1) }
    {
        self.largest = match self.largest {
            None => Some(number),
            Some(largest) => Some(largest.max(number)),
        };
        self.whole += length as u64 + 1;
    }
}

/// What the bytes of a file of boots say: each whole line has one number, from 1 to `LAST_BOOT` in
/// decimal digits without leading zeros, and a tail without newline says nothing. Computes in
/// O(bytes), without memory.
pub fn read_boots(bytes: &[u8]) -> Result<Boots, BootError>
    ensures ok { IfOk result (SaysBoots bytes.now) }
    ensures refused { IfErr result (IsRefused bytes.now) }
{
    let mut boots = Boots {
        largest: None,
        whole: 0,
    };
    let mut line = 1;
    let mut rest = bytes;
    while let Some((text, after)) = line_before(rest) {
        let Some(number) = boot_in(text) else {
            return Err(BootError::BadNumber { line });
        };
        boots.add(number, text.len());
        line += 1;
        rest = after;
    }
    Ok(boots)
}
