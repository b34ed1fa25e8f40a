//! Files of text, which are read and replaced as a whole.

ghost use Rattle.std.specs.Prelude.{IfErr};
ghost use Rattle.mote_kit.specs.Faults.{IsOfReading, IsOfWriting};

use crate::run_file::line_at;
use std::fs::{File, OpenFile};
use std::io::Write;
use std::rt::Files;
use std::{fmt, fs, io};

/// Why the text of a file can't be read, or be replaced.
#[derive(Clone, Copy, Drop)]
pub enum TextFault {
    NoFile,
    Folder,
    Unreadable,
    /// It has no UTF-8 in the line of this number.
    NotText(usize),
    /// It may not be written, or its folder may not.
    ReadOnly,
    /// The new file that is to replace it is there already.
    HasNewFile,
    NotWritten,
    OutOfMemory,
}

impl fmt::Display for TextFault {
    fn fmt<W: fmt::Write>(&self, f: &mut fmt::Formatter<W>) -> fmt::Result {
        let text = match self {
            TextFault::NotText(line) => return write!(f, "line {line}: not text"),
            TextFault::NoFile => "no such file",
            TextFault::Folder => "a folder",
            TextFault::Unreadable => "it can't be read",
            TextFault::ReadOnly => "it or its folder is read-only",
            TextFault::HasNewFile => {
                "a file of its name with .new after it is there, as an interrupt leaves it"
            }
            TextFault::NotWritten => "writing failed",
            TextFault::OutOfMemory => "out of memory",
        };
        f.write_str(text)
    }
}

/// Why a file can't be read.
fn read_fault(kind: io::ErrorKind) -> TextFault
    ensures { IsOfReading result }
{
    match kind {
        io::ErrorKind::OutOfMemory => TextFault::OutOfMemory,
        io::ErrorKind::NotFound => TextFault::NoFile,
        io::ErrorKind::IsADirectory => TextFault::Folder,
        _ => TextFault::Unreadable,
    }
}

/// Why a file can't be replaced.
fn write_fault(kind: io::ErrorKind) -> TextFault
    ensures { IsOfWriting result }
{
    match kind {
        io::ErrorKind::OutOfMemory => TextFault::OutOfMemory,
        io::ErrorKind::PermissionDenied => TextFault::ReadOnly,
        io::ErrorKind::AlreadyExists => TextFault::HasNewFile,
        _ => TextFault::NotWritten,
    }
}

/// The text of the file of this path.
///
/// # Errors
///
/// Where it can't be read, and where it isn't UTF-8.
pub fn read_text<R: AllocGlobal + Files>(rt: &R, path: &str) -> Result<String, TextFault>
    ensures { IfErr result IsOfReading }
{
    let bytes = match fs::read(rt, path) {
        Ok(bytes) => bytes,
        Err(error) => return Err(read_fault(error.kind())),
    };
    match String::from_utf8(bytes) {
        Ok(text) => Ok(text),
        Err(error) => {
            let line = line_at(error.as_bytes(), error.utf8_error().valid_up_to());
            Err(TextFault::NotText(line))
        }
    }
}

/// Replaces a file by a text: writes it to a new file beside it, which replaces the file once all of it is on the disk.
///
/// # Errors
///
/// Where that fails. The file is then as it was.
pub fn replace_text<R: AllocGlobal + Files>(rt: &R, path: &str, text: &str) -> Result<(), TextFault>
    ensures { IfErr result IsOfWriting }
{
    match replace(rt, path, text) {
        Ok(()) => Ok(()),
        Err(error) => Err(write_fault(error.kind())),
    }
}

fn replace<R: AllocGlobal + Files>(rt: &R, path: &str, text: &str) -> io::Result<()> {
    let path = fs::canonicalize(rt, path)?;
    let permissions = fs::metadata(rt, &path)?.permissions();
    if permissions.readonly() {
        return Err(io::Error::from(io::ErrorKind::PermissionDenied));
    }
    let beside = format!(in rt.alloc(); "{}.new", path.as_str())?;
    let mut file = File::create_new(rt, beside.as_str())?;
    let written = match file.write_all(text.as_bytes()) {
        Ok(()) => file.sync_all(),
        Err(error) => Err(error),
    };
    let placed = match written {
        Ok(()) => place(rt, beside.as_str(), path.as_str(), permissions),
        Err(error) => Err(error),
    };
    if placed.is_err() {
        let _ = fs::remove_file(rt, beside.as_str());
    }
    placed
}

/// Replaces a file by a new one, with the same permissions.
fn place<R: Files>(rt: &R, new: &str, path: &str, permissions: fs::Permissions) -> io::Result<()> {
    fs::set_permissions(rt, new, permissions)?;
    fs::rename(rt, new, path)
}
