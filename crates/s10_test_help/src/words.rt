//! Command lines as one text.

/// The words of a command line.
#[derive(Drop)]
pub struct Words<'a> {
    room: [&'a str; 24],
    count: usize,
}

impl<'a> Words<'a> {
    /// Splits a line at its spaces. A word between single quotes, such as `'a b.db'` or `''`, may
    /// have spaces and may be empty. The 24th word is the rest of a line that has more.
    pub fn of(line: &'a str) -> Words<'a> {
        let mut room = [""; 24];
        let mut left = line;
        for at in 0..23 {
            if left.is_empty() {
                return Words { room, count: at };
            }
            let (word, rest) = first_word(left);
            room[at] = word;
            left = rest;
        }
        room[23] = left;
        let count = if left.is_empty() { 23 } else { 24 };
        Words { room, count }
    }

    /// Returns the words in order.
    pub fn as_slice(&self) -> &[&'a str] {
        &self.room[..self.count.min(24)]
    }
}

/// Returns the first word of a line, and the line after it.
fn first_word(line: &str) -> (&str, &str) {
    match line.strip_prefix("'") {
        Some(quoted) => {
            let (word, rest) = quoted.split_once("'").unwrap_or((quoted, ""));
            (word, rest.strip_prefix(" ").unwrap_or(rest))
        }
        None => line.split_once(" ").unwrap_or((line, "")),
    }
}
