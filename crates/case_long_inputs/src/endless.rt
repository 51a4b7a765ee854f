//! A source without an end.

use lens_io::RealSource;
use std::io::{self, Read};

/// The length of a line of spaces, with its LF. It is the limit of a line, without its LF.
pub const LINE: usize = 1 << 20;

/// A text and then lines of 1,048,575 spaces, without an end.
#[derive(Drop)]
pub struct Endless {
    head: &'static [u8],
    left_in_line: usize,
}

impl Read for Endless {
    fn read(&mut self, buf: &mut [u8]) -> io::Result<usize> {
        if !self.head.is_empty() {
            let count = self.head.len().min(buf.len());
            buf[..count].copy_from_slice(&self.head[..count]);
            self.head = &self.head[count..];
            return Ok(count);
        }
        let count = self.left_in_line.min(buf.len());
        buf[..count].fill(b' ');
        self.left_in_line -= count;
        if self.left_in_line == 0 && count > 0 {
            buf[count - 1] = b'\n';
            self.left_in_line = LINE;
        }
        Ok(count)
    }
}

/// A source of this text and the lines behind it.
pub fn source_of(head: &'static str) -> RealSource<Endless> {
    RealSource::new(Endless {
        head: head.as_bytes(),
        left_in_line: LINE,
    })
}
