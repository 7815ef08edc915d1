// What is said on standard error. Where that is closed or full, there is nobody to tell.
use std::fmt;
use std::fmt::Write;
use std::io::Error;

// Standard error, for lines of bytes that need not be text.
pub trait Tell {
    fn tell(&self, line: &[u8]);
}

impl Tell for HostRuntime {
    fn tell(&self, line: &[u8]) {
        let _ = self.stderr().write_all(line);
    }
}

impl<T: Tell> Tell for &T {
    fn tell(&self, line: &[u8]) {
        (**self).tell(line)
    }
}

// The longest text of an error; what is longer is cut off.
const TEXT_MOST: usize = 64;

// What stands behind the system's own words: the error's number.
const NUMBER: [u8; 11] = *b" (os error ";

// An error's text as it is put together.
#[derive(Clone, Copy, Debug, PartialEq, Eq)]
struct Text {
    bytes: [u8; TEXT_MOST],
    length: usize,
}

impl Text {
    fn said(&self) -> &[u8] {
        base::part_of(&self.bytes, 0, self.length)
    }
}

impl Write for Text {
    fn write_str(&mut self, s: &str) -> fmt::Result {
        for b in s.as_bytes() {
            if self.length < TEXT_MOST {
                self.bytes[self.length] = *b;
                self.length += 1;
            }
        }
        Ok(())
    }
}

// Where the number begins, or the end.
fn words_end(text: &[u8]) -> usize {
    (0..text.len())
        .find(|i| text[*i..].starts_with(&NUMBER))
        .unwrap_or(text.len())
}

// The words alone.
fn words_of(text: &[u8]) -> &[u8] {
    base::part_of(text, 0, words_end(text))
}

// The system's words for an error; those of no error where it has none.
fn tell_error(rt: &impl Tell, error: Error) {
    let mut text = Text {
        bytes: [0u8; TEXT_MOST],
        length: 0,
    };
    let _ = write!(text, "{error}");
    rt.tell(words_of(text.said()));
}

// A line: what failed, as the caller names it, a colon, and the system's words for the error.
pub fn fail(rt: &impl Tell, what: &[u8], error: Option<Error>) {
    rt.tell(what);
    rt.tell(b": ");
    tell_error(rt, error.unwrap_or(Error::from_raw_os_error(0)));
    rt.tell(b"\n");
}
