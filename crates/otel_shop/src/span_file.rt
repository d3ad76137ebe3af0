//! Where the spans go: to the end of a file, or nowhere.

ghost use Rattle.std.specs.Prelude.{◌≤◌, IfOk, length};

use std::fs::{File, OpenOptions};
use std::io::Write;
use std::os::unix::fs::FileExt;
use std::rt::Files;
use std::{fs, io};

/// A file that lines are appended to, or what drops them.
#[derive(Drop)]
pub enum SpanFile {
    Open(LineFile),
    Dropped,
}

/// A file that several processes append lines to.
#[derive(Drop)]
pub struct LineFile {
    file: File,
    // The last write left the rest of its line to be written.
    is_inside_line: bool,
}

impl Write for SpanFile {
    fn write(&mut self, bytes: &[u8]) -> io::Result<usize> {
        match self {
            SpanFile::Open(file) => file.append(bytes),
            SpanFile::Dropped => Ok(bytes.len()),
        }
    }

    fn flush(&mut self) -> io::Result<()> {
        match self {
            SpanFile::Open(file) => file.file.flush(),
            SpanFile::Dropped => Ok(()),
        }
    }
}

impl LineFile {
    /// Asks the system once, so that a line of spans comes whole. Where the file ends inside the line of another writer,
    /// that is ended first.
    fn append(&mut self, bytes: &[u8]) -> io::Result<usize>
        ensures { IfOk result (λ count. count ≤ length bytes.now) }
    {
        if !self.is_inside_line && bytes.first() != Some(&b'\n') && ends_inside_line(&self.file) {
            let _count = self.file.write(b"\n")?;
        }
        let count = self.file.write(bytes)?;
        self.is_inside_line = count < bytes.len();
        Ok(count)
    }
}

/// Whether a file ends with something else than a line feed. Where that cannot be read it does not.
fn ends_inside_line(file: &File) -> bool {
    let Ok(metadata) = file.metadata() else {
        return false;
    };
    let Some(last) = metadata.len().checked_sub(1) else {
        return false;
    };
    let mut byte = [b'\n'];
    file.read_at(&mut byte, last).is_ok() && byte[0] != b'\n'
}

/// Opens a file to append to, which is made where it is not there.
pub fn open_appended<R: Files<File = File>>(rt: &R, path: &str) -> io::Result<SpanFile> {
    Ok(SpanFile::Open(LineFile {
        file: open_file(rt, path)?,
        is_inside_line: false,
    }))
}

/// A file of its own is opened to be read too, where that is allowed; not a pipe, which would have a reader then.
fn open_file<R: Files<File = File>>(rt: &R, path: &str) -> io::Result<File> {
    let mut options = OpenOptions::new();
    options.append(true).create(true);
    if !is_special(rt, path) {
        let mut reading = OpenOptions::new();
        reading.read(true).append(true).create(true);
        if let Ok(file) = reading.open(rt, path) {
            return Ok(file);
        }
    }
    options.open(rt, path)
}

/// Whether something is there that is no file.
fn is_special<R: Files<File = File>>(rt: &R, path: &str) -> bool {
    match fs::metadata(rt, path) {
        Ok(metadata) => !metadata.is_file(),
        Err(_) => false,
    }
}
