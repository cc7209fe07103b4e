//! All that a reader has left, and the whole of a text, over as many calls as that takes.

ghost use Rattle.std.specs.Prelude.{◌≡◌, ◌<◌, ◌^◌, ◌-◌, ◌+◌, IfOk, IfErr, IfSome, OnOk, OnErr};
ghost use Rattle.std.specs.Io.{StartsWith};
ghost use Rattle.std.specs.Io.KnownBytes.{Appends};
ghost use Rattle.byte_flow.specs.Device.{AppendsBeginning, IsDeviceFault, IsReadOf};

use crate::device::{Sink, Source};
use crate::fault::DeviceFault;
use std::alloc::Global;

/// All bytes up to the reader's end. `Device` where a read failed in this call, and `Memory` where
/// a growth was refused.
pub fn read_all<R: Source>(alloc: Global, reader: &mut R) -> Result<Vec<u8>, DeviceFault>
    // One more failed read can be counted.
    requires { R.failures reader.old < 2 ^ 64 - 1 }
    // They are what was left to read.
    ensures bytes { IfOk result (λ bytes.
        IfSome (R.remaining reader.old) (λ left. bytes.items ≡ left)) }
    // A fault is that of a read that failed, or of memory.
    ensures ok { OnOk result (R.failures reader.new ≡ R.failures reader.old) }
    ensures err { IfErr result
        (λ fault. IsDeviceFault (R.failures reader.old) (R.failures reader.new) fault) }
{
    let mut bytes = Vec::new(alloc);
    read_to_end(reader, &mut bytes)?;
    Ok(bytes)
}

/// Appends all bytes up to the reader's end. A read of 0 bytes is the reader's end.
///
/// `Device` where a read failed in this call, and `Memory` where a growth was refused: what was
/// there before stays.
pub fn read_to_end<R: Source>(reader: &mut R, bytes: &mut Vec<u8>) -> Result<(), DeviceFault>
    // One more failed read can be counted.
    requires { R.failures reader.old < 2 ^ 64 - 1 }
    // What was left to read stands behind what was there.
    ensures read { OnOk result (IsReadOf (R.remaining reader.old) bytes.old.items bytes.new.items) }
    ensures stays { StartsWith bytes.new.items bytes.old.items }
    // A fault is that of a read that failed, or of memory.
    ensures ok { OnOk result (R.failures reader.new ≡ R.failures reader.old) }
    ensures err { IfErr result
        (λ fault. IsDeviceFault (R.failures reader.old) (R.failures reader.new) fault) }
{
    let mut buffer = [0u8; 65536];
    loop {
        let Ok(count) = reader.read(&mut buffer) else {
            return Err(DeviceFault::Device);
        };
        if count == 0 {
            return Ok(());
        }
        bytes.extend_from_slice(&buffer[..count])?;
    }
}

/// Writes all of the text. `Device` where a write failed in this call, and then a beginning of it
/// was written.
pub fn write_all<W: Sink>(writer: &mut W, text: &[u8]) -> Result<(), DeviceFault>
    // One more failed write can be counted.
    requires count { W.failures writer.old < 2 ^ 64 - 1 }
    // The text may be written.
    requires allowed { W.allows writer.old text.now }
    // The text was written, and nothing failed.
    ensures ok { OnOk result (Appends (W.contents writer.old) (W.contents writer.new) text.now) }
    ensures same { OnOk result (W.failures writer.new ≡ W.failures writer.old) }
    // Where a write failed, a beginning of the text was written.
    ensures beginning { OnErr result
        (AppendsBeginning (W.contents writer.old) (W.contents writer.new) text.now) }
    ensures err { IfErr result (λ fault. (fault ≡ DeviceFault.Device)
        × (W.failures writer.new ≡ W.failures writer.old + 1)) }
{
    let mut done = 0;
    while done < text.len() {
        let Ok(count) = writer.write(&text[done..]) else {
            return Err(DeviceFault::Device);
        };
        done += count;
    }
    Ok(())
}
