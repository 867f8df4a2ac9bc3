// Bytes that a program writes.
ghost use Rattle.std.specs.Prelude.{IsTrue};
ghost use Rattle.std.specs.Io.KnownBytes.{Appends};

use std::io::Write;

// Writes the bytes and answers true, or stops at the first write that takes nothing or fails and answers false.
pub fn write_all<W: Write>(out: &mut W, bytes: &[u8]) -> bool
    ensures { IsTrue result → Appends (W.contents out.old) (W.contents out.new) bytes.now }
{
    out.write_all(bytes).is_ok()
}
