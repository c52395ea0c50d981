// Writing a text to a sink, to its end.
ghost use Rattle.std.specs.Prelude.{◌≤◌, OnOk, OnErr};
ghost use Rattle.std.specs.Io.KnownBytes.{Appends};
ghost use Rattle.base_model.specs.Faults.{Rose, TellsAlike};
ghost use Rattle.base_model.specs.Streams.{AppendsPrefix};

use crate::{Failed, Sink};

/// Writes all of a text. At `Err` a prefix of it was written.
pub fn write_all<K: Sink>(out: &mut K, text: &[u8]) -> Result<(), Failed>
    ensures ok { OnOk result (Appends (K.taken out.old) (K.taken out.new) text.now) }
    ensures prefix { AppendsPrefix (K.taken out.old) (K.taken out.new) text.now }
    ensures tells { TellsAlike (K.taken out.old) (K.taken out.new) }
    ensures later { K.faults out.old ≤ K.faults out.new }
    ensures err { OnErr result (Rose (K.faults out.old) (K.faults out.new)) }
{
    let mut done = 0usize;
    'pieces: while done < text.len() {
        let count = out.write(&text[done..])?;
        if count == 0 {
            return Err(Failed);
        }
        done += count;
    }
    Ok(())
}
