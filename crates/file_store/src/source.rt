//! What is read whole: a file, or the program's input.
ghost use Rattle.std.specs.Prelude.{◌≡◌, ◌<◌, ◌^◌, ◌-◌, ◌+◌, option_map, IfSome};
ghost use Rattle.std.specs.Prelude.{IfErr, OnOk};
ghost use Rattle.byte_flow.specs.Device.{GrewBy, IsDeviceFault};
ghost use Rattle.file_store.specs.Files.{IsAppended, StaysAllowed, may_lie_at};

use crate::store::Store;
use byte_flow::{DeviceFault, Source, read_to_end};

/// Appends the bytes of the file at this path, or those of the input where there is none.
///
/// `Device` where a call failed, or no file is at the path, and `Memory` where a growth was
/// refused.
pub fn append_given<D: Store, I: Source>(
    store: &mut D,
    input: &mut I,
    file: Option<&str>,
    bytes: &mut Vec<u8>,
) -> Result<(), DeviceFault>
    // One more failed call can be counted.
    requires store { D.failures store.old < 2 ^ 64 - 1 }
    requires input { I.failures input.old < 2 ^ 64 - 1 }
    // The store holds what it held.
    ensures held { D.held store.new ≡ D.held store.old }
    ensures allowed { StaysAllowed (D.allows store.old) (D.allows store.new) }
    // They are those of the file or of the input, and what one reading of the file handed over.
    ensures appended { OnOk result
        (IsAppended (may_lie_at (D.held store.old)) (option_map (λ path. path.now) file.entry)
        (I.remaining input.old) bytes.old.items bytes.new.items) }
    ensures handed { OnOk result
        (IsAppended D.hands (option_map (λ path. path.now) file.entry) (I.remaining input.old)
        bytes.old.items bytes.new.items) }
    // The device is at fault exactly where a call failed.
    ensures ok { OnOk result
        ((D.failures store.new ≡ D.failures store.old) ×
        (I.failures input.new ≡ I.failures input.old)) }
    ensures err { IfErr result (IsDeviceFault (D.failures store.old + I.failures input.old)
        (D.failures store.new + I.failures input.new)) }
    // Where a file is asked for, the input isn't touched.
    ensures kept { IfSome file.entry (λ _. input.new ≡ input.old) }
{
    match file {
        None => read_to_end(input, bytes),
        Some(path) => append_file(store, path, bytes),
    }
}

/// Appends the bytes of the file at this path, which has to be there.
///
/// `Device` where no file is there, or it can't be opened or read; `Memory` where a growth was
/// refused.
pub fn append_file<D: Store>(
    store: &mut D,
    path: &str,
    bytes: &mut Vec<u8>,
) -> Result<(), DeviceFault>
    // One more failed call can be counted.
    requires { D.failures store.old < 2 ^ 64 - 1 }
    // The store holds what it held.
    ensures held { D.held store.new ≡ D.held store.old }
    ensures allowed { StaysAllowed (D.allows store.old) (D.allows store.new) }
    // They are the file's, and what a reading handed over.
    ensures read { OnOk result
        (GrewBy (may_lie_at (D.held store.old) path.now) bytes.old.items bytes.new.items) }
    ensures handed { OnOk result (GrewBy (D.hands path.now) bytes.old.items bytes.new.items) }
    // The device is at fault exactly where a call failed.
    ensures ok { OnOk result (D.failures store.new ≡ D.failures store.old) }
    ensures err { IfErr result
        (λ fault. IsDeviceFault (D.failures store.old) (D.failures store.new) fault) }
{
    let mut file = store.open(path)?;
    let read = read_to_end(&mut file, bytes);
    store.close(file);
    read
}
