//! Writing a text whole.

ghost use Rattle.std.specs.Prelude.{◌≡◌, ◌≤◌, length, OnOk, OnErr};
ghost use Rattle.perm_base.specs.Counts.{Rose};
ghost use Rattle.perm_base.specs.Pieces.{appended, AppendsPart};
ghost use Rattle.perm_base.specs.Writes.{IsRefusedAfter, WritesUpTo};

use crate::outside::{Failed, Sink};

/// Writes until the sink has taken the whole text, or refuses a write. It takes no memory.
pub fn write_all<K: Sink>(sink: &mut K, text: &[u8]) -> Result<(), Failed>
    ensures whole { OnOk result (K.told sink.new ≡ appended (K.told sink.old) text.now) }
    ensures part { OnErr result (AppendsPart (K.told sink.old) (K.told sink.new) text.now) }
    ensures failed { OnErr result (Rose (K.faults sink.old) (K.faults sink.new)) }
    ensures not_fewer { K.faults sink.old ≤ K.faults sink.new }
    ensures no_fault { OnOk result (K.faults sink.new ≡ K.faults sink.old) }
    ensures writes { OnOk result
        (WritesUpTo K.write_gives text.now sink.old (length text.now) sink.new) }
    ensures refused { OnErr result (IsRefusedAfter K.write_gives text.now sink.old sink.new) }
{
    let mut rest = text;
    while !rest.is_empty() {
        let taken = sink.write(rest)?;
        rest = &rest[taken..];
    }
    Ok(())
}
