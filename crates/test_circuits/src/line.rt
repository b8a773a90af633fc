//! A line of words, read from its first word on.
use circuit::{Piece, Sig};
use sim_base::{Bits, Name};
use sqlite_items::Items;
use std::alloc::Global;

/// What is left of a line. Each call takes a word; it answers none where there is none of its form, or no memory.
#[derive(Drop)]
pub struct Line<'a> {
    pub alloc: Global,
    rest: &'a str,
}

impl<'a> Line<'a> {
    pub fn new(alloc: Global, text: &'a str) -> Line<'a> {
        Line { alloc, rest: text }
    }

    pub fn word(&mut self) -> Option<&'a str> {
        let rest = self.rest.trim_start();
        if rest.is_empty() {
            return None;
        }
        let (word, rest) = rest.split_once(' ').unwrap_or((rest, ""));
        self.rest = rest;
        Some(word)
    }

    /// A word, and `-` where there is none.
    pub fn word_or_none(&mut self) -> &'a str {
        self.word().unwrap_or("-")
    }

    /// A decimal number.
    pub fn number(&mut self) -> Option<u32> {
        self.word()?.parse::<u32>().ok()
    }

    /// A number in hexadecimal digits.
    pub fn hexadecimal(&mut self) -> Option<u64> {
        u64::from_str_radix(self.word()?, 16).ok()
    }

    /// Numbers in hexadecimal digits, which `,` parts; `-` are none.
    pub fn hexadecimals(&mut self) -> Option<Vec<u64>> {
        let mut numbers = Vec::new(self.alloc);
        let word = self.word()?;
        if word != "-" {
            for digits in word.split(',') {
                numbers.push(u64::from_str_radix(digits, 16).ok()?).ok()?;
            }
        }
        Some(numbers)
    }

    /// A flag, which is `0` or `1`.
    pub fn flag(&mut self) -> Option<bool> {
        flag_of(self.word()?.as_bytes(), 0)
    }

    /// The first five flags of a word.
    pub fn five_flags(&mut self) -> Option<[bool; 5]> {
        let word = self.word()?.as_bytes();
        Some([
            flag_of(word, 0)?,
            flag_of(word, 1)?,
            flag_of(word, 2)?,
            flag_of(word, 3)?,
            flag_of(word, 4)?,
        ])
    }

    /// Flags; `-` are none.
    pub fn flags(&mut self) -> Option<Items<bool>> {
        let mut flags = Items::new(self.alloc);
        let word = self.word_or_none();
        if word != "-" {
            for byte in word.as_bytes() {
                flags.push(*byte == b'1').ok()?;
            }
        }
        Some(flags)
    }

    /// A value, `WIDTH'DIGITS`.
    pub fn bits(&mut self) -> Option<Bits> {
        constant(self.alloc, self.word()?)
    }

    /// A part of a net, `NET[AT+:WIDTH]`, by the net, its first bit and its width.
    pub fn part(&mut self) -> Option<(u32, u32, u32)> {
        part(self.word()?)
    }

    /// A signal; `-` and no word are the empty one.
    pub fn sig(&mut self) -> Option<Sig> {
        sig_of(self.alloc, self.word_or_none())
    }

    /// A name; `-` and no word are the empty one.
    pub fn name(&mut self) -> Option<Name> {
        name_of(self.alloc, self.word_or_none())
    }

    /// A name; `-` and no word are none.
    pub fn name_or_none(&mut self) -> Option<Option<Name>> {
        match self.word_or_none() {
            "-" => Some(None),
            word => Some(Some(name_of(self.alloc, word)?)),
        }
    }
}

fn flag_of(word: &[u8], at: usize) -> Option<bool> {
    match *word.get(at)? {
        b'0' => Some(false),
        b'1' => Some(true),
        _ => None,
    }
}

fn name_of(alloc: Global, word: &str) -> Option<Name> {
    let mut bytes = Vec::new(alloc);
    if word != "-" {
        for byte in word.as_bytes() {
            bytes.push(name_byte(*byte)).ok()?;
        }
    }
    Some(Name::new(bytes))
}

fn name_byte(byte: u8) -> u8 {
    match byte {
        b'_' => b' ',
        b'?' => 0xFF,
        _ => byte,
    }
}

/// The value of this width of hexadecimal digits, in which `f*12` are twelve times `f`, and `.` parts such runs; none
/// where the width does not hold it.
pub fn value(alloc: Global, width: u32, digits: &str) -> Option<Bits> {
    let mut all = Vec::new(alloc);
    for run in digits.split('.') {
        put_run(&mut all, run)?;
    }
    let mut value = Bits::zero(alloc, width).ok()?;
    if value.put_hexadecimal(all.as_slice()) {
        Some(value)
    } else {
        None
    }
}

fn put_run(digits: &mut Vec<u8>, run: &str) -> Option<()> {
    let (digit, times) = run.split_once('*').unwrap_or((run, "1"));
    for _ in 0..times.parse::<u32>().ok()? {
        digits.extend_from_slice(digit.as_bytes()).ok()?;
    }
    Some(())
}

fn constant(alloc: Global, word: &str) -> Option<Bits> {
    let (width, digits) = word.split_once('\'')?;
    value(alloc, width.parse::<u32>().ok()?, digits)
}

fn part(word: &str) -> Option<(u32, u32, u32)> {
    let (net, rest) = word.split_once('[')?;
    let (at, rest) = rest.split_once('+')?;
    let width = rest.strip_prefix(':')?.strip_suffix(']')?;
    let net = net.parse::<u32>().ok()?;
    let at = at.parse::<u32>().ok()?;
    Some((net, at, width.parse::<u32>().ok()?))
}

fn piece(alloc: Global, word: &str) -> Option<Piece> {
    match part(word) {
        Some((net, at, width)) => Some(Piece::Part { net, at, width }),
        None => Some(Piece::Const(constant(alloc, word)?)),
    }
}

fn sig_of(alloc: Global, word: &str) -> Option<Sig> {
    let mut sig = Items::new(alloc);
    if word != "-" {
        for text in word.split(',') {
            sig.push(piece(alloc, text)?).ok()?;
        }
    }
    Some(sig)
}
