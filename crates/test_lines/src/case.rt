//! A call that is asked for, and what fails in it: words `key=value`, with one space between two.
//!
//! A value is a number, a name, the hexadecimal digits of bytes, or a text between quotation marks, in which `\xHH`
//! stands for a byte, as `show` prints it. `tests/README.md` has the keys. A key that is not there has no bytes, and 0
//! as its number.
ghost use Rattle.std.specs.Prelude.{◌≤◌};

use crate::growths;
use std::alloc::Global;
use std::env::Env;
use xdr_types::Limits;

/// A word: a key and its value, and whether that stands between quotation marks.
#[derive(Clone, Copy)]
pub struct Word<'a> {
    key: &'a str,
    value: &'a str,
    is_text: bool,
}

/// The words of a line, and the memory for what they say.
#[derive(Drop)]
pub struct Case<'a> {
    pub alloc: Global,
    words: Vec<Word<'a>>,
}

// The word that begins the line, and what follows it.
fn first_word(line: &str) -> (Word<'_>, &str) {
    let (key, value) = line.split_once('=').unwrap_or((line, ""));
    match value.strip_prefix('"') {
        Some(text) => {
            let (value, rest) = text.split_once('"').unwrap_or((text, ""));
            let word = Word {
                key,
                value,
                is_text: true,
            };
            (word, rest.strip_prefix(' ').unwrap_or(rest))
        }
        None => {
            let (value, rest) = value.split_once(' ').unwrap_or((value, ""));
            (
                Word {
                    key,
                    value,
                    is_text: false,
                },
                rest,
            )
        }
    }
}

impl<'a> Case<'a> {
    /// The case that a line holds, of at most 32 words.
    pub fn read(alloc: Global, line: &'a str) -> Case<'a> {
        let mut words = Vec::new(alloc);
        let mut rest = line;
        for _ in 0..32 {
            if rest.is_empty() {
                break;
            }
            let (word, behind) = first_word(rest);
            let _pushed = words.push(word);
            rest = behind;
        }
        Case { alloc, words }
    }

    // The word with a key.
    fn find(&self, key: &str) -> Option<Word<'a>> {
        for word in &self.words {
            if word.key == key {
                return Some(*word);
            }
        }
        None
    }

    /// Whether a key is there.
    pub fn has(&self, key: &str) -> bool {
        self.find(key).is_some()
    }

    /// The value of a key as it stands, empty where there is none.
    pub fn word(&self, key: &str) -> &'a str {
        match self.find(key) {
            Some(word) => word.value,
            None => "",
        }
    }

    /// The text of a key, which may stand between quotation marks; empty where memory is refused.
    pub fn text(&self, key: &str) -> String {
        match String::from_utf8(self.spelled(key)) {
            Ok(text) => text,
            Err(_) => String::new(self.alloc),
        }
    }

    // The bytes of a key's text.
    fn spelled(&self, key: &str) -> Vec<u8> {
        match self.find(key) {
            Some(word) if word.is_text => unescaped(self.alloc, word.value),
            Some(word) => joined(Vec::new(self.alloc), word.value.as_bytes()),
            None => Vec::new(self.alloc),
        }
    }

    // The number of a key, 0 where there is none.
    fn number(&self, key: &str) -> u64 {
        self.word(key).parse::<u64>().unwrap_or(0)
    }

    /// The same of 32 bits.
    pub fn whole(&self, key: &str) -> u32 {
        self.number(key).min(4294967295) as u32
    }

    /// How many bytes a read gives or a write takes, at least one: 4096 where the key is not there.
    pub fn piece(&self, key: &str) -> usize
        ensures { 1 ≤ result }
    {
        let piece = match self.number(key) {
            0 => 4096,
            piece => piece as usize,
        };
        piece.max(1)
    }

    /// Which call of a device fails, from 1, if one does.
    pub fn failing(&self, key: &str) -> Option<u64> {
        match self.number(key) {
            0 => None,
            call => Some(call),
        }
    }

    /// What is to be called.
    pub fn call(&self) -> &'a str {
        self.word("call")
    }

    /// The bytes of a key; none where they are no bytes, or where memory is refused.
    pub fn bytes(&self, key: &str) -> Vec<u8> {
        match self.find(key) {
            Some(word) if word.is_text => unescaped(self.alloc, word.value),
            Some(word) => digits(self.alloc, word.value),
            None => Vec::new(self.alloc),
        }
    }

    /// The bytes of a key, with a comma between two; none where the key is not there.
    pub fn list(&self, key: &str) -> Vec<Vec<u8>> {
        let mut all = Vec::new(self.alloc);
        if self.has(key) {
            for part in self.word(key).split(',') {
                let _pushed = all.push(digits(self.alloc, part));
            }
        }
        all
    }

    /// The bytes to read, behind so many zeros.
    pub fn input(&self) -> Vec<u8> {
        let bytes = self.bytes("input");
        match self.number("zeros") {
            0 => bytes,
            zeros => behind_zeros(self.alloc, zeros.min(16777216) as usize, &bytes),
        }
    }

    /// The limits on depth and bytes, the greatest where they are not there, and none out of their range.
    pub fn limits(&self) -> Option<Limits> {
        Limits::new(self.depth(), self.most())
    }

    /// The limit on depth.
    pub fn depth(&self) -> u32 {
        if self.has("depth") {
            self.whole("depth")
        } else {
            4096
        }
    }

    /// The limit on bytes.
    pub fn most(&self) -> u32 {
        if self.has("bytes") {
            self.whole("bytes")
        } else {
            16777216
        }
    }

    /// Refuses growths from here on, as the case asks, and gives how many there were before.
    pub fn refuse(&self, rt: &impl Env) -> u64 {
        self.refuse_behind(rt, 0)
    }

    /// The same where so many growths of the case were met before.
    pub fn refuse_behind(&self, rt: &impl Env, met: u64) -> u64 {
        let asked = self.word("refuse");
        let _refuses = match asked.strip_suffix("..") {
            Some(first) => {
                let first = first.parse::<u64>().unwrap_or(0);
                growths::refuse_from(self.alloc, rt, first.saturating_sub(met).max(1))
            }
            None => {
                let number = asked.parse::<u64>().unwrap_or(0);
                growths::refuse(self.alloc, rt, number.saturating_sub(met))
            }
        };
        growths::count(rt).unwrap_or(0)
    }
}

/// The bytes of hexadecimal digits; none where they are no digits, or where memory is refused.
pub fn digits(alloc: Global, text: &str) -> Vec<u8> {
    match hex::decode(alloc, text) {
        Ok(bytes) => bytes,
        Err(_) => Vec::new(alloc),
    }
}

// Adds what stands behind a reversed solidus: `x`, two digits of a byte, and bytes.
fn push_behind(out: &mut Vec<u8>, piece: &str) {
    let byte = u8::from_str_radix(piece.get(1..3).unwrap_or("0"), 16).unwrap_or(0);
    let _pushed = out.push(byte);
    let _added = out.extend_from_slice(piece.as_bytes().get(3..).unwrap_or(&[]));
}

// The bytes of a text.
fn unescaped(alloc: Global, text: &str) -> Vec<u8> {
    let mut out = Vec::new(alloc);
    for (number, piece) in text.split('\\').enumerate() {
        if number == 0 {
            let _added = out.extend_from_slice(piece.as_bytes());
        } else {
            push_behind(&mut out, piece);
        }
    }
    out
}

// The bytes behind so many zeros.
fn behind_zeros(alloc: Global, zeros: usize, bytes: &[u8]) -> Vec<u8> {
    match vec![in alloc; 0u8; zeros] {
        Ok(zeros) => joined(zeros, bytes),
        Err(_) => Vec::new(alloc),
    }
}

/// Bytes with others behind them.
pub fn joined(before: Vec<u8>, bytes: &[u8]) -> Vec<u8> {
    let mut all = before;
    let _added = all.extend_from_slice(bytes);
    all
}

/// How many growths there were since that many.
pub fn since(rt: &impl Env, before: u64) -> u64 {
    growths::count(rt).unwrap_or(0).saturating_sub(before)
}

/// Refuses nothing more, and gives how many growths there were since that many.
pub fn allow(rt: &impl Env, before: u64) -> u64 {
    let met = since(rt, before);
    growths::allow(rt);
    met
}
