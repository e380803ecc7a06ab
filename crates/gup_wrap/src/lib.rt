//! Text that is broken into lines of a greatest length.
#![tactic(auto)]

use gup_base::NoMemory;
use std::alloc::Global;
use std::mem;

/// The text in lines of at most `width` bytes, broken at its blanks. A word that is too long for a line is cut. Each line behind the
/// first begins with `indent` blanks, which count, too, and several blanks are one. A text without a word has no line.
pub fn wrapped(
    alloc: Global,
    text: &[u8],
    width: usize,
    indent: usize,
) -> Result<Vec<Vec<u8>>, NoMemory> {
    let mut wrapping = Wrapping::new(alloc, width, indent);
    for byte in text {
        wrapping.put(*byte)?;
    }
    wrapping.end_word()?;
    wrapping.end_line()?;
    Ok(wrapping.lines)
}

// Lines that are being made.
#[derive(Drop)]
struct Wrapping {
    alloc: Global,
    width: usize,
    indent: usize,
    lines: Vec<Vec<u8>>,
    // The line that is not full yet, and whether it has a word.
    line: Vec<u8>,
    has_word: bool,
    // The word that has not ended yet.
    word: Vec<u8>,
}

impl Wrapping {
    fn new(alloc: Global, width: usize, indent: usize) -> Wrapping {
        Wrapping {
            alloc,
            width,
            indent,
            lines: Vec::new(alloc),
            line: Vec::new(alloc),
            has_word: false,
            word: Vec::new(alloc),
        }
    }

    fn put(&mut self, byte: u8) -> Result<(), NoMemory> {
        if byte == b' ' {
            return self.end_word();
        }
        if self.word.len() >= self.longest_word() {
            self.end_word()?;
            self.end_line()?;
        }
        self.word.push(byte)?;
        Ok(())
    }

    // How long a word may be that is not cut.
    fn longest_word(&self) -> usize {
        self.width.saturating_sub(self.indent).max(1)
    }

    fn end_word(&mut self) -> Result<(), NoMemory> {
        if self.word.is_empty() {
            return Ok(());
        }
        if self.has_word && !self.fits() {
            self.end_line()?;
        }
        if self.has_word {
            self.line.push(b' ')?;
        }
        self.line.extend_from_slice(self.word.as_slice())?;
        self.has_word = true;
        self.word.clear();
        Ok(())
    }

    // Whether the line has room for a blank and the word.
    fn fits(&self) -> bool {
        self.line.len().saturating_add(self.word.len()) < self.width
    }

    fn end_line(&mut self) -> Result<(), NoMemory> {
        if !self.has_word {
            return Ok(());
        }
        let line = mem::replace(&mut self.line, Vec::new(self.alloc));
        self.lines.push(line)?;
        self.has_word = false;
        for _ in 0..self.indent {
            self.line.push(b' ')?;
        }
        Ok(())
    }
}

#[cfg(test)]
mod tests;
