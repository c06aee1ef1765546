// Why something failed, in the system's words alone: std sets the error's number behind them, `Is a directory (os error 21)`. The words are held in an array,
// so that no program asks for memory to say them.
use std::fmt::Write;
use std::{fmt, io};

// Some words: the first 256 bytes of what is written to it.
#[derive(Drop)]
pub struct Text {
    bytes: [u8; 256],
    len: usize,
}

impl Text {
    // The words, up to the error's number.
    pub fn words(&self) -> &[u8] {
        let all = self.bytes.get(..self.len).unwrap_or(&self.bytes);
        let end = all
            .windows(11)
            .position(|part| part == b" (os error ".as_slice())
            .unwrap_or(all.len());
        all.get(..end).unwrap_or(all)
    }
}

impl Write for Text {
    fn write_str(&mut self, s: &str) -> fmt::Result {
        for b in s.as_bytes() {
            if let Some(place) = self.bytes.get_mut(self.len) {
                *place = *b;
                self.len += 1;
            }
        }
        Ok(())
    }
}

pub fn of(error: io::Error) -> Text {
    let mut text = Text {
        bytes: [0; 256],
        len: 0,
    };
    let _ = text.write(error);
    text
}

#[cfg(test)]
mod tests {
    use super::*;

    // What the C library says of these numbers; and a failure of std's own, which has no number.
    #[test]
    fn no_number_is_told(rt: HostRuntime) {
        let missing = of(io::Error::from_raw_os_error(2));
        assert!(rt; missing.words() == b"No such file or directory".as_slice());
        let full = of(io::Error::from_raw_os_error(28));
        assert!(rt; full.words() == b"No space left on device".as_slice());
        let other = of(io::Error::new(io::ErrorKind::Other, "(os error"));
        assert!(rt; other.words() == b"(os error".as_slice());
    }
}
