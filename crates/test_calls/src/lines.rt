//! The columns of a command line's row: its words and its output.

use std::alloc::{AllocError, Global};

/// What a column holds that stands for nothing.
const NOTHING: &str = "-";

/// Returns the text of a column, in which `\n` stands for a line end and `\\` for a backslash.
///
/// # Errors
///
/// If an allocation fails.
pub fn unescaped(alloc: Global, column: &str) -> Result<String, AllocError> {
    let mut text = String::new(alloc);
    if column == NOTHING {
        return Ok(text);
    }
    let mut is_escape = false;
    'chars: for char in column.chars() {
        match (is_escape, char) {
            (false, '\\') => is_escape = true,
            (true, 'n') => {
                text.push('\n')?;
                is_escape = false;
            }
            (_, char) => {
                text.push(char)?;
                is_escape = false;
            }
        }
    }
    Ok(text)
}

/// Returns the program's name and the words of a line after it.
///
/// # Errors
///
/// If an allocation fails.
pub fn words_of<'a>(alloc: Global, line: &'a str) -> Result<Vec<&'a str>, AllocError> {
    let mut words = Vec::new(alloc);
    words.push("scaleview")?;
    if line != NOTHING {
        'words: for word in line.split(' ') {
            words.push(word)?;
        }
    }
    Ok(words)
}
