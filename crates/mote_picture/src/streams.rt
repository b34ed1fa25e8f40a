//! Standard input and standard output, each as a whole.

use command_line::Failure;
use mote_types::fault::{BootFault, RunFault};
use std::io;
use std::io::{Read, Write};

/// All bytes of standard input.
pub(crate) fn read_all<R: AllocGlobal + io::Input>(rt: &R) -> Result<Vec<u8>, Failure<'static>> {
    let mut bytes = Vec::new(rt.alloc());
    let mut reader = rt.reader();
    match reader.read_to_end(&mut bytes) {
        Ok(_) => Ok(bytes),
        Err(error) if error.kind() == io::ErrorKind::OutOfMemory => Err(BootFault::Memory.into()),
        Err(_) => Err(RunFault::Read.into()),
    }
}

/// Writes bytes to standard output.
pub(crate) fn write_all<R: Print>(rt: &R, bytes: &[u8]) -> Result<(), Failure<'static>> {
    let mut writer = io::writer(rt);
    match writer.write_all(bytes) {
        Ok(()) => Ok(()),
        Err(_) => Err(RunFault::Write.into()),
    }
}
