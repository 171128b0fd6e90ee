//! What is reported of a call: words of one line, in the form of a case's, each written behind the one before. What
//! memory is refused for is left out.
use std::alloc::{AllocError, Global};
use std::fmt::Debug;

/// A line so far.
#[derive(Drop)]
pub struct Report {
    pub alloc: Global,
    line: Vec<u8>,
    is_quoted: bool,
}

impl Report {
    /// An empty line.
    pub fn new(alloc: Global) -> Report {
        Report {
            alloc,
            line: Vec::new(alloc),
            is_quoted: false,
        }
    }

    /// The bytes of the line.
    pub fn bytes(&self) -> &[u8] {
        &self.line
    }

    /// Adds bytes: as they stand between quotation marks where a text was begun, and else as they are.
    pub fn push(&mut self, bytes: &[u8]) {
        if self.is_quoted {
            for byte in bytes {
                self.push_quoted(*byte);
            }
        } else {
            let _added = self.line.extend_from_slice(bytes);
        }
    }

    // Adds a byte as it stands between quotation marks.
    fn push_quoted(&mut self, byte: u8) {
        let _added = if byte < 0x20 || byte > 0x7e || byte == b'"' || byte == b'\\' {
            let digits = [b'\\', b'x', digit(byte >> 4), digit(byte & 15)];
            self.line.extend_from_slice(&digits)
        } else {
            self.line.extend_from_slice(&[byte])
        };
    }

    /// Adds a text.
    pub fn text(&mut self, text: &str) {
        self.push(text.as_bytes());
    }

    // Adds a text that was made.
    fn made(&mut self, made: Result<String, AllocError>) {
        if let Ok(text) = made {
            self.text(text.as_str());
        }
    }

    /// Adds a text and a number behind it.
    pub fn number(&mut self, before: &str, number: u64) {
        let made = format!(in self.alloc; "{before}{number}");
        self.made(made);
    }

    /// The same of a number that may be negative.
    pub fn signed(&mut self, before: &str, number: i128) {
        let made = format!(in self.alloc; "{before}{number}");
        self.made(made);
    }

    /// Adds a text and a name behind it, as it stands in the source.
    pub fn name<T: Debug>(&mut self, before: &str, name: &T) {
        let made = format!(in self.alloc; "{before}{name:?}");
        self.made(made);
    }

    /// Adds a text and the hexadecimal digits of bytes behind it.
    pub fn digits(&mut self, before: &str, bytes: &[u8]) {
        self.text(before);
        let made = hex::encode(self.alloc, bytes);
        self.made(made);
    }

    /// Adds what stands between two of a list, where others stand before.
    pub fn between(&mut self, number: usize, mark: &str) {
        if number > 0 {
            self.text(mark);
        }
    }

    /// Begins a word whose text stands between quotation marks. Its key has the space before it and the sign behind it.
    pub fn begin(&mut self, key: &str) {
        self.text(key);
        self.text("\"");
        self.is_quoted = true;
    }

    /// Ends that word.
    pub fn end(&mut self) {
        self.is_quoted = false;
        self.text("\"");
    }

    /// Adds a word of a text.
    pub fn word(&mut self, key: &str, text: &[u8]) {
        self.begin(key);
        self.push(text);
        self.end();
    }

    /// Begins the line of an answer: how many growths were met, and then what was answered, up to its end.
    pub fn answer(&mut self, met: u64) {
        self.number("growths=", met);
        self.begin(" answer=");
    }

    /// Adds the line of an answer that is a text.
    pub fn answered(&mut self, met: u64, answer: &str) {
        self.answer(met);
        self.text(answer);
        self.end();
    }

    /// The same of an exit status, and what was written to both streams.
    pub fn ended(&mut self, met: u64, status: u8) {
        self.number("growths=", met);
        self.number(" status=", u64::from(status));
    }

    /// Adds a word of a list of bytes, a comma between two, and how many there are.
    pub fn parts(&mut self, sizes: &[usize], bytes: &[u8]) {
        self.number(" count=", sizes.len() as u64);
        self.text(" sent=");
        let mut rest = bytes;
        for (number, size) in sizes.iter().enumerate() {
            self.between(number, ",");
            self.digits("", rest.get(..*size).unwrap_or(&[]));
            rest = rest.get(*size..).unwrap_or(&[]);
        }
    }
}

// The hexadecimal digit of a number below 16.
fn digit(number: u8) -> u8 {
    match b"0123456789abcdef".get(number as usize) {
        Some(digit) => *digit,
        None => b'0',
    }
}
