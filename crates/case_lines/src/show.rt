//! What is printed: lines of words, numbers and bytes.
//!
//! No call has an error. Where memory is refused the text is lost from there on, and [`Lines::is_whole`] tells so.

use md5::{Digest, Md5};
use scrip_form::Id;
use std::alloc::Global;

/// The most bytes that are printed as they are.
const MOST: usize = 512;

/// Lines that are printed. A line is begun by its verb, and each thing in it stands behind a blank.
#[derive(Drop)]
pub struct Lines {
    text: Vec<u8>,
    is_whole: bool,
}

impl Lines {
    pub fn new(alloc: Global) -> Lines {
        Lines {
            text: Vec::new(alloc),
            is_whole: true,
        }
    }

    /// What was printed.
    pub fn text(&self) -> &[u8] {
        &self.text
    }

    /// Whether nothing was lost.
    pub fn is_whole(&self) -> bool {
        self.is_whole
    }

    fn put(&mut self, bytes: &[u8]) {
        if self.text.extend_from_slice(bytes).is_err() {
            self.is_whole = false;
        }
    }

    /// Begins a line.
    pub fn start(&mut self, verb: &str) {
        self.put(verb.as_bytes());
    }

    /// Ends a line.
    pub fn end(&mut self) {
        self.put(&[b'\n']);
    }

    /// A line of these words alone.
    pub fn line(&mut self, words: &str) {
        self.start(words);
        self.end()
    }

    /// A line of a verb and one word.
    pub fn said(&mut self, verb: &str, word: &str) {
        self.start(verb);
        self.word(word.as_bytes());
        self.end()
    }

    /// A line of a verb and one number.
    pub fn counted(&mut self, verb: &str, n: u64) {
        self.start(verb);
        self.number(n);
        self.end()
    }

    /// A line of a verb and bytes.
    pub fn given(&mut self, verb: &str, bytes: &[u8]) {
        self.start(verb);
        self.bytes(bytes);
        self.end()
    }

    /// A line of a verb, and `yes` or `no`.
    pub fn answered(&mut self, verb: &str, is_so: bool) {
        self.said(verb, if is_so { "yes" } else { "no" })
    }

    pub fn word(&mut self, word: &[u8]) {
        self.put(&[b' ']);
        self.put(word);
    }

    pub fn number(&mut self, n: u64) {
        self.sum(u128::from(n))
    }

    pub fn sum(&mut self, n: u128) {
        self.word(itoa::Buffer::new().format(n).as_bytes())
    }

    /// An identity, by its sixteen digits.
    pub fn identity(&mut self, id: Id) {
        self.put(&[b' ']);
        self.hex(&id.number().to_be_bytes())
    }

    /// Bytes by their digits, as those of digests.
    pub fn digits(&mut self, bytes: &[u8]) {
        self.put(&[b' ']);
        self.hex(bytes)
    }

    /// Bytes that may lack.
    pub fn some_bytes(&mut self, bytes: Option<&[u8]>) {
        match bytes {
            Some(bytes) => self.bytes(bytes),
            None => self.word(b"-"),
        }
    }

    /// Bytes as a text in quotation marks, and many by their length and digest.
    pub fn bytes(&mut self, bytes: &[u8]) {
        if bytes.len() > MOST {
            self.digest(bytes);
            return;
        }
        self.put(b" \"");
        for byte in bytes {
            self.escaped(*byte);
        }
        self.put(&[b'"']);
    }

    /// Bytes by their length and digest.
    pub fn digest(&mut self, bytes: &[u8]) {
        self.number(bytes.len() as u64);
        self.put(&[b'#']);
        self.hex(&Md5::digest(bytes))
    }

    fn escaped(&mut self, byte: u8) {
        match byte {
            b'\n' => self.put(b"\\n"),
            b'\r' => self.put(b"\\r"),
            b'"' | b'\\' => self.put(&[b'\\', byte]),
            b' '..=b'~' => self.put(&[byte]),
            _ => {
                self.put(b"\\x");
                self.hex(&[byte]);
            }
        }
    }

    fn hex(&mut self, bytes: &[u8]) {
        for byte in bytes {
            self.put(&[digit(*byte / 16)]);
            self.put(&[digit(*byte % 16)]);
        }
    }
}

/// The hex digit of a number.
fn digit(n: u8) -> u8 {
    match n {
        0..=9 => b'0' + n,
        10..=15 => b'a' + (n - 10),
        _ => b'?',
    }
}
