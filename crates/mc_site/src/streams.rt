use mc_door::Source;
use std::io;
use std::io::{Read, Write};

/// One link over a reader and a writer, as standard input and standard output are; no more come.
#[derive(Drop)]
pub struct Streams<R, W, E> {
    input: R,
    output: W,
    taken: bool,
    // where somebody is told that he is asked for input, before it is read
    asks: Option<E>,
}

impl<R: Read, W: Write, E: Eprint> Streams<R, W, E> {
    /// The link over these. Where there is `asks`, standard error asks for the input before it is read.
    pub fn new(input: R, output: W, asks: Option<E>) -> Streams<R, W, E> {
        Streams {
            input,
            output,
            taken: false,
            asks,
        }
    }
}

impl<R: Read, W: Write, E: Eprint + Drop> Source for Streams<R, W, E> {
    fn next(&mut self) -> io::Result<bool> {
        let first = !self.taken;
        self.taken = true;
        Ok(first)
    }

    fn recv(&mut self, buf: &mut [u8]) -> io::Result<usize> {
        if let Some(rt) = self.asks.take() {
            let _ = eprintln!(rt;
                "millicent: reads standard input, a terminal, up to its end: Ctrl-D on a line of its own"
            );
        }
        self.input.read(buf)
    }

    fn send(&mut self, bytes: &[u8]) -> io::Result<usize> {
        self.output.write(bytes)
    }

    fn is_operators(&self) -> bool {
        false
    }

    fn end(&mut self) {}

    fn finish(&mut self) {}
}
