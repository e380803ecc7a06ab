//! The tables of a tree, in rows: the number of each, where it stands, and its words.
ghost use Rattle.std.specs.Prelude.{◌≡◌, ℕ, ◌+◌, ◌*◌, ◌<◌, ◌≤◌, ◌==◌, not, length, None, Some, IsSome, IfOk};
ghost use Rattle.gup_plain.specs.Denial.{any_below};
ghost use Rattle.gup_plain.specs.Put.{put, put2};
ghost use Rattle.gup_spec_tables.specs.Tables.{table_words, placed_tables};
ghost use Rattle.gup_tables.specs.Rows.{row_of, place_in, word_in};

use crate::number::TableNo;
use gup_base::NoMemory;
use gup_spec_tables::Place;
use std::alloc::Global;
use std::marker::Model;

// How many words a table has, and how many numbers of tables there are.
const WORDS: usize = 512;

const NUMBERS: usize = 8192;

/// Tables in rows, without gaps. The memory for all words is there from the start, and none of it is touched before a table
/// needs it.
#[derive(Drop)]
pub(crate) struct Rows {
    // Row by row.
    numbers: Vec<TableNo>,
    places: Vec<Place>,
    words: Vec<u64>,
    // By number: the row of a table that has one.
    rows: Vec<u16>,
    // How many tables there may be.
    room: u32,
}

impl Model for Rows {
    ghost use Rattle.std.specs.Prelude.{vec_capacity};
    ghost use Rattle.gup_tables.specs.Rows.{RowLists, IsKept};

    ghost Value = { RowLists };

    ghost view = { λ r. record { numbers = r.numbers.items; places = r.places.items; words = r.words.items; rows = r.rows.items; room = r.room } };

    ghost invariant = { λ r. IsKept (record { numbers = r.numbers.items; places = r.places.items; words = r.words.items; rows = r.rows.items; room = r.room })
        (vec_capacity r.numbers) (vec_capacity r.places) (vec_capacity r.words) };
}

impl Rows {
    /// No tables, with room for so many.
    pub(crate) fn new(alloc: Global, room: u32) -> Result<Rows, NoMemory>
        requires { room ≤ 8192 }
        ensures places { IfOk result (λ rows. place_in rows ≡ (λ _. None)) }
        ensures words { IfOk result (λ rows. word_in rows ≡ (λ _ _. 0)) }
        ensures len { IfOk result (λ rows. length rows.numbers ≡ 0) }
        ensures room { IfOk result (λ rows. rows.room ≡ room) }
    {
        let most = room as usize;
        Ok(Rows {
            numbers: Vec::with_capacity(alloc, most)?,
            places: Vec::with_capacity(alloc, most)?,
            words: Vec::with_capacity(alloc, WORDS * most)?,
            rows: vec![in alloc; 0; NUMBERS]?,
            room,
        })
    }

    /// How many tables there are.
    #[inline]
    pub(crate) fn len(&self) -> u32
        ensures { result ≡ length self.now.numbers }
    {
        self.numbers.len() as u32
    }

    /// How many there may be.
    #[inline]
    pub(crate) fn room(&self) -> u32
        ensures { result ≡ self.now.room }
    {
        self.room
    }

    /// A law: so many tables stand somewhere.
    pub(crate) fn is_counted(&self)
        ensures { placed_tables (place_in self.now) ≡ length self.now.numbers }
    {
        let _numbers = &self.numbers;
    }

    /// Where the table stands, if it is one of these.
    #[inline]
    pub(crate) fn place(&self, table: TableNo) -> Option<Place>
        ensures { result ≡ place_in self.now table }
    {
        let row = usize::from(self.rows[table.get() as usize]);
        if row < self.numbers.len() && self.numbers[row] == table {
            Some(self.places[row])
        } else {
            None
        }
    }

    // The row of one of these tables.
    #[inline(always)]
    fn row(&self, table: TableNo) -> usize
        requires { IsSome (place_in self.now table) }
        ensures { row_of self.now table ≡ Some result }
    {
        usize::from(self.rows[table.get() as usize])
    }

    /// Word `i` of one of these tables.
    #[inline]
    pub(crate) fn word(&self, table: TableNo, i: usize) -> u64
        requires table { IsSome (place_in self.now table) }
        requires within { i < 512 }
        ensures { result ≡ word_in self.now table i }
    {
        self.words[WORDS * self.row(table) + i]
    }

    /// Whether each word of this table, which is one of these, is 0. It looks at word `first` first, and goes round.
    pub(crate) fn is_empty(&self, table: TableNo, first: usize) -> bool
        requires table { IsSome (place_in self.now table) }
        requires first { first < 512 }
        ensures { result ≡ not (any_below table_words (λ i. not (word_in self.now table i == 0))) }
    {
        for k in 0..WORDS {
            if self.word(table, (first + k) % WORDS) != 0 {
                return false;
            }
        }
        true
    }

    /// Writes word `i` of one of these tables.
    #[inline]
    pub(crate) fn set_word(&mut self, table: TableNo, i: usize, word: u64)
        requires table { IsSome (place_in self.old table) }
        requires within { i < 512 }
        ensures places { place_in self.new ≡ place_in self.old }
        ensures words { word_in self.new ≡ put2 table i word (word_in self.old) }
        ensures len { length self.new.numbers ≡ length self.old.numbers }
        ensures room { self.new.room ≡ self.old.room }
    {
        let row = self.row(table);
        self.words[WORDS * row + i] = word;
    }

    /// Puts in a table that isn't one of these, with words 0. There is room for it.
    pub(crate) fn insert(&mut self, table: TableNo, place: Place)
        requires absent { place_in self.old table ≡ None }
        requires room { length self.old.numbers < self.old.room }
        ensures places { place_in self.new ≡ put table (Some place) (place_in self.old) }
        ensures words { word_in self.new ≡ word_in self.old }
        ensures len { length self.new.numbers ≡ length self.old.numbers + 1 }
        ensures room { self.new.room ≡ self.old.room }
        ensures number { table < 8192 }
    {
        let row = self.numbers.len();
        self.numbers.push_reserved(table);
        self.places.push_reserved(place);
        self.words.resize(WORDS * (row + 1), 0).unwrap();
        self.rows[table.get() as usize] = row as u16;
    }

    /// Takes out one of these tables, whose words are 0. The last row takes its place.
    pub(crate) fn remove(&mut self, table: TableNo)
        requires table { IsSome (place_in self.old table) }
        requires empty { (i : ℕ) → word_in self.old table i ≡ 0 }
        ensures places { place_in self.new ≡ put table None (place_in self.old) }
        ensures words { word_in self.new ≡ word_in self.old }
        ensures len { length self.new.numbers + 1 ≡ length self.old.numbers }
        ensures room { self.new.room ≡ self.old.room }
    {
        let row = self.row(table);
        let last = self.numbers.len() - 1;
        let moved = self.numbers[last];
        self.rows[moved.get() as usize] = row as u16;
        self.numbers.swap_remove(row);
        self.places.swap_remove(row);
        let first = WORDS * last;
        self.words.copy_within(first..first + WORDS, WORDS * row);
        self.words.truncate(first);
    }
}
