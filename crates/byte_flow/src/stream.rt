//! What is read once, up to its end.
ghost use Rattle.std.specs.Prelude.{◌≡◌, ℕ, List, [], ◌<◌, ◌^◌, ◌-◌, length, take, IfOk, IfErr};
ghost use Rattle.std.specs.Prelude.{OnOk, OnErr};
ghost use Rattle.std.specs.Io.{ReadsAtMost};
ghost use Rattle.byte_flow.specs.Device.{HasGiven, IsDeviceFault, IsLeft};

use crate::device::Source;
use crate::fault::DeviceFault;

/// A text that is read once, up to its end. More texts than one may be possible, if not all of what
/// it is made of is known. Each `Source` is one.
pub trait Stream {
    // The texts that reads may give from here on, up to the end.
    ghost gives: { Self → List ℕ → Type 0 };

    // How many calls have failed so far.
    ghost failures: { Self → ℕ };

    /// Reads some bytes into the front of `buffer`, and answers how many; 0 where none are left, or
    /// the buffer is empty.
    ///
    /// `Device` where a call failed, `Memory` where a growth was refused. The count of failed
    /// calls, which has to be below its greatest value, rises by one exactly with `Device`.
    fn read(&mut self, buffer: &mut [u8]) -> Result<usize, DeviceFault>
        requires { failures self.old < 2 ^ 64 - 1 }
        ensures bound { ReadsAtMost result buffer.new }
        ensures bytes { IfOk result
            (λ count. HasGiven (gives self.old) (gives self.new) (take count buffer.new)) }
        ensures end { IfOk result
            (λ count. count ≡ 0 → 0 < length buffer.new → gives self.new []) }
        ensures kept { OnErr result (HasGiven (gives self.old) (gives self.new) []) }
        ensures ok { OnOk result (failures self.new ≡ failures self.old) }
        ensures err { IfErr result
            (λ fault. IsDeviceFault (failures self.old) (failures self.new) fault) };

    /// Does nothing: what it says is that there is a text that reads may give.
    fn has_text(&self)
        ensures { (text : List ℕ) × gives self.now text };
}

impl<S: Source> Stream for S {
    ghost gives = { λ s. IsLeft (S.remaining s) };

    ghost failures = { λ s. S.failures s };

    fn read(&mut self, buffer: &mut [u8]) -> Result<usize, DeviceFault> {
        match Source::read(self, buffer) {
            Ok(count) => Ok(count),
            Err(_) => Err(DeviceFault::Device),
        }
    }

    fn has_text(&self) {}
}
