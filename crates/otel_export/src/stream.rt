//! Bytes that are written to a stream whole.

ghost use Rattle.std.specs.Prelude.{◌≤◌, IfOk, OnErr, OnOk, length, take};
ghost use Rattle.std.specs.Io.KnownBytes.{Appends, Keeps};
ghost use Rattle.otel_export.specs.Streams.{AppendsBeginning};

use std::io;
use std::io::{ErrorKind, Write};

/// Writes all bytes and sends them on. An interrupted write is tried again. On an error a beginning of them was
/// written.
pub fn write_whole<W: Write>(writer: &mut W, bytes: &[u8]) -> io::Result<()>
    ensures ok { OnOk result (Appends (W.contents writer.old) (W.contents writer.new) bytes.now) }
    ensures err { OnErr result (AppendsBeginning (W.contents writer.old) (W.contents writer.new) bytes.now) }
{
    let mut written = 0;
    for _ in 0..u64::MAX {
        if written >= bytes.len() {
            return writer.flush();
        }
        written += write_some(writer, &bytes[written..])?;
    }
    Err(io::Error::from(ErrorKind::TimedOut))
}

/// Writes what the writer takes at once, and says how much that is: nothing where it was interrupted.
fn write_some<W: Write>(writer: &mut W, bytes: &[u8]) -> io::Result<usize>
    ensures ok { IfOk result (λ count. (count ≤ length bytes.now)
        × Appends (W.contents writer.old) (W.contents writer.new) (take count bytes.now)) }
    ensures err { OnErr result (Keeps (W.contents writer.old) (W.contents writer.new)) }
{
    match writer.write(bytes) {
        Ok(0) => Err(io::Error::from(ErrorKind::WriteZero)),
        Ok(count) => Ok(count),
        Err(error) if error.kind() == ErrorKind::Interrupted => Ok(0),
        Err(error) => Err(error),
    }
}
