//! A text that is read in blocks of whole lines.

ghost use Rattle.std.specs.Prelude.{◌≡◌, ◌<◌, ◌≤◌, ◌^◌, ◌-◌, length, take, IfOk, IfErr};
ghost use Rattle.std.specs.Prelude.{OnOk, OnErr, ◌++◌, [], List, ℕ};
ghost use Rattle.byte_flow.specs.Device.{HasGiven, IsDeviceFault};
ghost use Rattle.byte_flow.specs.Inner.Lines.{IsReadAt};

use crate::fault::DeviceFault;
use crate::stream::Stream;
use memchr::memrchr;
use std::alloc::{AllocError, Global};
use std::marker::Model;

/// So many bytes a buffer begins with, and grows by: it is longer only where a line is.
const ROOM: usize = 65536;

/// A buffer by which a text is read in blocks of whole lines. It holds 64 KB, or where a line is
/// longer, that line with up to 64 KB more; its memory may be twice that.
#[derive(Drop)]
pub struct LineBuffer {
    /// What was read, and room for more.
    room: Vec<u8>,
    /// The block that was read last: so many bytes from the front.
    block: usize,
    /// So many bytes were read: the block, and a line that is begun.
    filled: usize,
}

impl Model for LineBuffer {
    ghost use Rattle.std.specs.Prelude.{◌≤◌, length, take, drop};
    ghost use Rattle.byte_flow.specs.Lines.{LinesOf, lines_code};

    ghost Value = { LinesOf };

    ghost coded = { lines_code };

    ghost view = { λ b. record {
      block = take b.block b.room.items;
      begun = drop b.block (take b.filled b.room.items);
    } };

    ghost invariant = { λ b. (b.block ≤ b.filled) × (b.filled ≤ length b.room.items) };
}

impl LineBuffer {
    ghost use Rattle.std.specs.Prelude.{◌≡◌, ◌<◌, ◌≤◌, ◌^◌, ◌-◌, ◌++◌, [], IfOk, IfErr, OnOk};
    ghost use Rattle.std.specs.Prelude.{OnErr, length};
    ghost use Rattle.std.specs.Bool.{OnTrue, OnFalse};
    ghost use Rattle.byte_flow.specs.Device.{IsDeviceFault};
    ghost use Rattle.byte_flow.specs.Lines.{EndsWithLine, IsBegunFurther, IsNextBlock};
    ghost use Rattle.byte_flow.specs.Inner.Lines.{IsReadBehind};

    /// A buffer by which nothing was read yet. An error is a refused growth.
    pub fn new(alloc: Global) -> Result<LineBuffer, AllocError>
        ensures block { IfOk result (λ buffer. buffer.block ≡ []) }
        ensures begun { IfOk result (λ buffer. buffer.begun ≡ []) }
    {
        Ok(LineBuffer {
            room: vec![in alloc; 0u8; ROOM]?,
            block: 0,
            filled: 0,
        })
    }

    /// A buffer by which these bytes were read, of a line that is begun. An error is a refused
    /// growth.
    pub fn begun(alloc: Global, begun: &[u8]) -> Result<LineBuffer, AllocError>
        ensures block { IfOk result (λ buffer. buffer.block ≡ []) }
        ensures begun { IfOk result (λ buffer. buffer.begun ≡ begun.now) }
    {
        Ok(LineBuffer {
            room: begun.to_vec(alloc)?,
            block: 0,
            filled: begun.len(),
        })
    }

    /// The block that was read last.
    pub fn block(&self) -> &[u8]
        ensures { result.now ≡ self.now.block }
    {
        &self.room[..self.block]
    }

    /// Reads the next block, and answers whether it ends with a line end. One that doesn't is the
    /// last: what stands behind the text's last line end, and maybe nothing.
    ///
    /// `Device` where a read failed, `Memory` where a growth was refused. Nothing is lost then:
    /// there is no block, and what was read is begun.
    pub fn refill<S: Stream>(&mut self, source: &mut S) -> Result<bool, DeviceFault>
        // One more failed read can be counted.
        requires { S.failures source.old < 2 ^ 64 - 1 }
        // The line that was begun, and what was read now, are the block and a line that is begun.
        ensures block { IfOk result (IsNextBlock (S.gives source.old) (S.gives source.new)
            self.old.begun self.new) }
        // Behind an error all of it is begun.
        ensures begun { OnErr result (IsBegunFurther (S.gives source.old)
            (S.gives source.new) self.old.begun self.new) }
        // A fault is that of a read that failed, or of memory.
        ensures ok { OnOk result (S.failures source.new ≡ S.failures source.old) }
        ensures err { IfErr result
            (λ fault. IsDeviceFault (S.failures source.old) (S.failures source.new) fault) }
    {
        self.leave_block();
        loop {
            let count = self.read_more(source)?;
            if count == 0 {
                self.block = self.filled;
                return Ok(false);
            }
            if self.end_at_line(count) {
                return Ok(true);
            }
        }
    }

    /// What is begun goes to the front, and there is no block.
    fn leave_block(&mut self)
        ensures block { self.new.block ≡ [] }
        ensures begun { self.new.begun ≡ self.old.begun }
    {
        let begun = self.filled - self.block;
        self.room.copy_within(self.block..self.filled, 0);
        self.block = 0;
        self.filled = begun;
    }

    /// Reads some bytes behind what is begun, and answers how many: 0 at the source's end. The room
    /// grows where it is full.
    fn read_more<S: Stream>(&mut self, source: &mut S) -> Result<usize, DeviceFault>
        requires count { S.failures source.old < 2 ^ 64 - 1 }
        requires none { self.old.block ≡ [] }
        ensures read { IfOk result (IsReadBehind (S.gives source.old) (S.gives source.new)
            self.old self.new) }
        ensures kept { OnErr result (IsBegunFurther (S.gives source.old)
            (S.gives source.new) self.old.begun self.new) }
        ensures ok { OnOk result (S.failures source.new ≡ S.failures source.old) }
        ensures err { IfErr result
            (λ fault. IsDeviceFault (S.failures source.old) (S.failures source.new) fault) }
    {
        make_room(&mut self.room, self.filled)?;
        let count = read_at(&mut self.room, self.filled, source)?;
        self.filled += count;
        Ok(count)
    }

    /// Ends the block behind the last line end among so many bytes that were read last, and answers
    /// whether there is one.
    fn end_at_line(&mut self, count: usize) -> bool
        requires none { self.old.block ≡ [] }
        requires within { count ≤ length self.old.begun }
        ensures same { self.new.block ++ self.new.begun ≡ self.old.begun }
        ensures whole { OnTrue result (EndsWithLine self.new.block) }
        ensures none { OnFalse result (self.new ≡ self.old) }
    {
        let from = self.filled - count;
        match memrchr(b'\n', &self.room[from..self.filled]) {
            Some(end) => {
                self.block = from + end + 1;
                true
            }
            None => false,
        }
    }
}

/// Makes the room longer where so many bytes fill it.
fn make_room(room: &mut Vec<u8>, filled: usize) -> Result<(), AllocError>
    requires { filled ≤ length room.old.items }
    ensures same { take filled room.new.items ≡ take filled room.old.items }
    ensures more { OnOk result (filled < length room.new.items) }
    ensures longer { length room.old.items ≤ length room.new.items }
{
    if filled == room.len() {
        grow(room)?;
    }
    Ok(())
}

/// Makes the room longer. It is a function of its own since it has that much on the stack.
fn grow(room: &mut Vec<u8>) -> Result<(), AllocError>
    ensures more { OnOk result ((more : List ℕ)
        × (room.new.items ≡ room.old.items ++ more) × (0 < length more)) }
    ensures same { OnErr result (room.new.items ≡ room.old.items) }
{
    room.extend_from_slice(&[0u8; ROOM])?;
    Ok(())
}

/// Reads some bytes behind so many of a room that goes on behind these.
fn read_at<S: Stream>(room: &mut [u8], from: usize, source: &mut S) -> Result<usize, DeviceFault>
    requires count { S.failures source.old < 2 ^ 64 - 1 }
    requires within { from < length room.old }
    ensures read { IfOk result (IsReadAt (S.gives source.old) (S.gives source.new)
        (take from room.old) room.new from) }
    ensures kept { OnErr result (HasGiven (S.gives source.old) (S.gives source.new) []
        × (take from room.new ≡ take from room.old)) }
    ensures long { length room.new ≡ length room.old }
    ensures ok { OnOk result (S.failures source.new ≡ S.failures source.old) }
    ensures err { IfErr result
        (λ fault. IsDeviceFault (S.failures source.old) (S.failures source.new) fault) }
{
    let (_, rest) = room.split_at_mut(from);
    source.read(rest)
}
