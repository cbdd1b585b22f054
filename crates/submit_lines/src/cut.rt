ghost use Rattle.std.specs.Prelude.{◌≡◌, ◌≤◌, ◌<◌, ◌==◌, length};
ghost use Rattle.std.specs.List.{position_or_len};
ghost use Rattle.std.specs.Option.{option_map};
ghost use Rattle.submit_lines.specs.Arguments.{between};

/// What stands between a byte at the start and another at the end, both ASCII, without memory.
/// Computes in O(1).
#[tactic(auto, using(crate::proofs::Boundaries::outer_cuts))]
pub(crate) fn between(text: &str, opening: u8, closing: u8) -> Option<&str>
    requires opening { opening < 128 }
    requires closing { closing < 128 }
    ensures { option_map (λ t. t.now) result ≡ between opening closing text.now }
{
    let bytes = text.as_bytes();
    if bytes.len() < 2 || bytes[0] != opening || bytes[bytes.len() - 1] != closing {
        return None;
    }
    Some(&text[1..text.len() - 1])
}

/// How many bytes stand before the first that is this one. Computes in O(that many).
pub(crate) fn run_before(text: &str, stop: u8) -> usize
    ensures value { result ≡ position_or_len (λ b. b == stop) text.now }
    ensures within { result ≤ length text.now }
{
    text.as_bytes().iter().take_while(|b| **b != stop).count()
}
