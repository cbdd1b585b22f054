ghost use Rattle.std.specs.Prelude.{◌≡◌, ◌≤◌, ◌++◌, ℕ, true, take, OnOk, OnErr};
ghost use Rattle.pool_outer.specs.Cause.{Rose};

use pool_outer::{Sink, SinkError};

/// Writes all of the bytes; a fault leaves a prefix of them written.
pub fn write_all<K: Sink>(out: &mut K, bytes: &[u8]) -> Result<(), SinkError>
    ensures written { K.tells out.old ≡ true
        → OnOk result (K.written out.new ≡ K.written out.old ++ bytes.now) }
    ensures part { K.tells out.old ≡ true
        → (n : ℕ) × (K.written out.new ≡ K.written out.old ++ take n bytes.now) }
    ensures told { K.tells out.new ≡ K.tells out.old }
    ensures later { K.faults out.old ≤ K.faults out.new }
    ensures quiet { OnOk result (K.faults out.new ≡ K.faults out.old) }
    ensures rose { OnErr result (Rose (K.faults out.old) (K.faults out.new)) }
{
    let mut done = 0;
    'writes: while done < bytes.len() {
        done += out.write(&bytes[done..])?;
    }
    Ok(())
}
