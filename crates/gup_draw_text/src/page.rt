//! Lines of a bounded width that have no blanks at their end.
use gup_base::NoMemory;
use std::alloc::Global;

/// The columns of a line.
pub(crate) const WIDTH: usize = 100;

/// The text that is drawn. What doesn't fit into its line is left out, and so are the blanks at a line's end.
#[derive(Drop)]
pub(crate) struct Page {
    text: Vec<u8>,
    // How far the line has come, and how many blanks at its end are not in the text yet.
    column: usize,
    blanks: usize,
}

impl Page {
    pub(crate) fn new(alloc: Global) -> Page {
        Page {
            text: Vec::new(alloc),
            column: 0,
            blanks: 0,
        }
    }

    pub(crate) fn into_text(self) -> Vec<u8> {
        self.text
    }

    pub(crate) fn is_empty(&self) -> bool {
        self.text.is_empty()
    }

    pub(crate) fn column(&self) -> usize {
        self.column
    }

    pub(crate) fn put_byte(&mut self, byte: u8) -> Result<(), NoMemory> {
        if self.column >= WIDTH {
            return Ok(());
        }
        self.column = self.column.saturating_add(1);
        if byte == b' ' {
            self.blanks = self.blanks.saturating_add(1);
            return Ok(());
        }
        self.put_blanks()?;
        self.text.push(byte)?;
        Ok(())
    }

    fn put_blanks(&mut self) -> Result<(), NoMemory> {
        for _ in 0..self.blanks {
            self.text.push(b' ')?;
        }
        self.blanks = 0;
        Ok(())
    }

    pub(crate) fn put(&mut self, text: &[u8]) -> Result<(), NoMemory> {
        for byte in text {
            self.put_byte(*byte)?;
        }
        Ok(())
    }

    pub(crate) fn put_text(&mut self, text: &str) -> Result<(), NoMemory> {
        self.put(text.as_bytes())
    }

    /// The line of these that has this place, if there is one.
    pub(crate) fn put_line_of(&mut self, lines: &[Vec<u8>], place: usize) -> Result<(), NoMemory> {
        match lines.get(place) {
            Some(line) => self.put(line.as_slice()),
            None => Ok(()),
        }
    }

    /// Goes on at this column, if the line has not come further.
    pub(crate) fn pad_to(&mut self, column: usize) -> Result<(), NoMemory> {
        for _ in self.column..column {
            self.put_byte(b' ')?;
        }
        Ok(())
    }

    pub(crate) fn put_dashes_to(&mut self, column: usize) -> Result<(), NoMemory> {
        for _ in self.column..column {
            self.put_byte(b'-')?;
        }
        Ok(())
    }

    pub(crate) fn end_line(&mut self) -> Result<(), NoMemory> {
        self.text.push(b'\n')?;
        self.column = 0;
        self.blanks = 0;
        Ok(())
    }
}
