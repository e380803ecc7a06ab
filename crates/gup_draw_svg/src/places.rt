//! Where everything stands, in pixels.
use gup_scene::{Row, Scene};
use itoa::Buffer;

/// What is left free at each edge.
pub(crate) const MARGIN: usize = 8;

/// The width of a narrow screen, without a page's own margins.
const NARROW: usize = 384;

/// The most actors with which the picture is that narrow, where its numbers are short.
const NARROW_LANES: usize = 10;

/// The least width of the text, and its width where there are many actors.
const TEXT_AT_LEAST: usize = 184;

const TEXT_OF_MANY: usize = 352;

/// The most letters of a row's numbers in one line.
const LABEL_AT_MOST: usize = 6;

/// The places of the picture's parts from left to right.
#[derive(Clone, Copy)]
pub(crate) struct Places {
    /// Where the numbers of the turns end.
    pub label: usize,
    /// Where the first rail is, and how far one is from the next.
    first_rail: usize,
    gap: usize,
    /// Where the text begins.
    pub text: usize,
    /// How wide the picture is.
    pub width: usize,
}

impl Places {
    pub(crate) fn of(scene: &Scene) -> Places {
        let lanes = scene.lanes.len();
        let label = MARGIN.saturating_add(label_letters(scene).saturating_mul(7));
        let gap = gap_of(lanes);
        let first_rail = label.saturating_add(6).saturating_add(gap / 2);
        let text = first_rail
            .saturating_add(gap.saturating_mul(lanes))
            .saturating_add(2);
        let width = if lanes <= NARROW_LANES {
            NARROW.max(text.saturating_add(TEXT_AT_LEAST).saturating_add(MARGIN))
        } else {
            text.saturating_add(TEXT_OF_MANY).saturating_add(MARGIN)
        };
        Places {
            label,
            first_rail,
            gap,
            text,
            width,
        }
    }

    /// Whether a name of so many letters has room beside others above the rails.
    pub(crate) fn has_room(self, letters: usize) -> bool {
        letters.saturating_mul(7) < self.gap
    }

    /// Where the rail of this lane is.
    pub(crate) fn rail(self, lane: usize) -> usize {
        self.first_rail
            .saturating_add(self.gap.saturating_mul(lane))
    }

    /// How many letters of 13 pixels a line of text has.
    pub(crate) fn said_letters(self) -> usize {
        letters(self.text_width(), 78)
    }

    /// How many letters of 11 pixels a line has that says what is so.
    pub(crate) fn state_letters(self) -> usize {
        letters(self.text_width().saturating_sub(9), 66)
    }

    /// How many letters of 13 pixels a line has that is as wide as the picture.
    pub(crate) fn head_letters(self) -> usize {
        letters(self.width.saturating_sub(2 * MARGIN), 78)
    }

    fn text_width(self) -> usize {
        self.width.saturating_sub(self.text).saturating_sub(MARGIN)
    }
}

// How many letters stand in these pixels, if ten of them take so many.
fn letters(width: usize, ten: usize) -> usize {
    width.saturating_mul(10).checked_div(ten).unwrap_or(0)
}

// How far one rail is from the next.
fn gap_of(lanes: usize) -> usize {
    match lanes {
        0..=3 => 26,
        4..=5 => 20,
        6..=8 => 14,
        9..=10 => 12,
        11..=24 => 18,
        _ => 10,
    }
}

fn label_letters(scene: &Scene) -> usize {
    let mut most = 4;
    for row in scene.rows.iter() {
        most = row_letters(row).max(most);
    }
    most
}

// The letters of the longest line of the row's numbers.
fn row_letters(row: &Row) -> usize {
    if row.first == row.last {
        return digits(row.first);
    }
    let first = digits(row.first).saturating_add(1);
    let last = digits(row.last);
    if is_short(row) {
        first.saturating_add(last)
    } else {
        first.max(last)
    }
}

/// Whether both numbers of a row stand in one line.
pub(crate) fn is_short(row: &Row) -> bool {
    digits(row.first)
        .saturating_add(digits(row.last))
        .saturating_add(1)
        <= LABEL_AT_MOST
}

fn digits(number: u32) -> usize {
    let mut buffer = Buffer::new();
    buffer.format(number).len()
}
