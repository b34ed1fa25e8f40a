//! Readers and writers as a source and a sink: standard input and output among them.

ghost use Rattle.std.specs.Prelude.{◌≡◌, [], false, IsSome, unwrap_or};

use mote_types::device::{ByteSink, ByteSource};
use mote_types::fault::DeviceFault;
use std::io::{Read, Write};

/// A reader's bytes, which stay unnamed.
#[derive(Drop)]
pub struct Input<R> {
    reader: R,
    ended: bool,
    failed: u64,
}

impl<R> Input<R> {
    pub fn new(reader: R) -> Self
        ensures ended { result.ended ≡ false }
        ensures failed { result.failed ≡ 0 }
    {
        Input {
            reader,
            ended: false,
            failed: 0,
        }
    }
}

impl<R: Read> ByteSource for Input<R> {
    ghost is_named = { ⊥ };

    ghost taken = { λ _. [] };

    ghost is_ended = { λ input. input.ended };

    ghost failure_count = { λ input. input.failed };

    fn failures(&self) -> u64 {
        self.failed
    }

    fn read(&mut self, buffer: &mut [u8]) -> Result<usize, DeviceFault> {
        match self.reader.read(buffer) {
            Ok(n) => {
                self.ended = n == 0;
                Ok(n)
            }
            Err(_) => {
                self.failed += 1;
                Err(DeviceFault)
            }
        }
    }
}

/// A writer's bytes. Contracts know them if the writer's do, as for one over memory.
#[derive(Drop)]
pub struct Output<W> {
    pub writer: W,
    failed: u64,
}

impl<W> Output<W> {
    pub fn new(writer: W) -> Self
        ensures writer { result.writer ≡ writer }
        ensures unfailed { result.failed ≡ 0 }
    {
        Output { writer, failed: 0 }
    }
}

impl<W: Write> ByteSink for Output<W> {
    ghost is_named = { (writer : W) → IsSome (W.contents writer) };

    ghost given = { λ output. unwrap_or (W.contents output.writer) [] };

    ghost failure_count = { λ output. output.failed };

    fn failures(&self) -> u64 {
        self.failed
    }

    fn write(&mut self, bytes: &[u8]) -> Result<usize, DeviceFault> {
        match self.writer.write(bytes) {
            Ok(n) if n > 0 => Ok(n),
            _ => {
                self.failed += 1;
                Err(DeviceFault)
            }
        }
    }
}
