// A text to a descriptor that the command line names by its number. Where that is closed, or takes nothing, there is
// nobody to tell.
use crate::Surroundings;
use message_lines::Line;
use std::fs;
use std::fs::OpenOptions;
use std::io::{Error, ErrorKind, Result, Write};
use std::os::unix::fs::MetadataExt;

const OUTPUT: i32 = 1;

const ERROR: i32 = 2;

// Who has a descriptor open for writing has this right on its path.
const WRITER: u32 = 0o200;

// The path by which the system opens a descriptor's file once more.
fn path_of(fd: i32) -> Line {
    let mut path = Line::new();
    path.add(b"/proc/self/fd/");
    path.add_number(u64::from(fd.unsigned_abs()));
    path
}

// Is the descriptor open for writing? The file itself may well be written, where the descriptor only reads it.
fn is_written(rt: &impl Surroundings, path: &str) -> Result<bool> {
    let metadata = fs::symlink_metadata(rt, path)?;
    Ok(metadata.mode() & WRITER != 0)
}

// What stands in the file already stays as it is.
fn append(rt: &impl Surroundings, path: &str, text: &[u8]) -> Result<()> {
    if !is_written(rt, path)? {
        return Err(Error::from(ErrorKind::PermissionDenied));
    }
    let mut file = OpenOptions::new().append(true).open(rt, path)?;
    file.write_all(text)
}

fn write_by_path(rt: &impl Surroundings, fd: i32, text: &[u8]) {
    let path = path_of(fd);
    if let Ok(path) = str::from_utf8(path.said()) {
        let _ = append(rt, path, text);
    }
}

pub fn write_all(rt: &impl Surroundings, fd: i32, text: &[u8]) {
    match fd {
        OUTPUT => {
            let _ = rt.write_all(text);
        }
        ERROR => rt.tell(text),
        _ => write_by_path(rt, fd, text),
    }
}
