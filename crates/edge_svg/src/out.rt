// The way to standard output: a room of its own, so that few writes are made and no memory is asked for.
use std::io;
use std::io::{Stdout, Write};

// Standard output, and the bytes on the way there: the first `used` of the room.
#[derive(Drop)]
pub(crate) struct Out {
    to: Stdout,
    room: [u8; 65536],
    used: usize,
}

impl Out {
    pub(crate) fn new(to: Stdout) -> Out {
        Out {
            to,
            room: files::large_buffer(),
            used: 0,
        }
    }

    // A number, by its digits.
    pub(crate) fn number(&mut self, n: usize) -> io::Result<()> {
        let mut digits = [0u8; 20];
        let count = files::decimal(n as u64, &mut digits);
        self.write_all(&digits[..count])
    }
}

// The first n bytes of a room go out.
fn send(to: &mut Stdout, room: &[u8], n: usize) -> io::Result<()> {
    if room.len() < n {
        return Err(io::Error::from(io::ErrorKind::InvalidInput));
    }
    to.write_all(&room[..n])
}

// A part that did not fit: each turn writes a byte or more.
#[inline(never)]
fn write_rest(out: &mut Out, bytes: &[u8]) -> io::Result<()> {
    let mut rest = bytes;
    for _ in 0..bytes.len() {
        if rest.is_empty() {
            return Ok(());
        }
        let n = out.write(rest)?;
        rest = rest.get(n..).unwrap_or(&[]);
    }
    if rest.is_empty() {
        Ok(())
    } else {
        Err(io::Error::from(io::ErrorKind::WriteZero))
    }
}

impl Write for Out {
    fn write(&mut self, bytes: &[u8]) -> io::Result<usize> {
        if self.room.len() <= self.used {
            send(&mut self.to, &self.room, self.used)?;
            self.used = 0;
        }
        let Some(left) = self.room.get_mut(self.used..) else {
            return Ok(0);
        };
        let n = left.len().min(bytes.len());
        left[..n].copy_from_slice(&bytes[..n]);
        self.used = self.used.wrapping_add(n);
        Ok(n)
    }

    // Most parts fit.
    fn write_all(&mut self, bytes: &[u8]) -> io::Result<()> {
        let n = self.write(bytes)?;
        if n == bytes.len() {
            return Ok(());
        }
        write_rest(self, bytes.get(n..).unwrap_or(&[]))
    }

    fn flush(&mut self) -> io::Result<()> {
        send(&mut self.to, &self.room, self.used)?;
        self.used = 0;
        self.to.flush()
    }
}
