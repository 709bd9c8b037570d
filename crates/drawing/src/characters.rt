// Each character of a drawing, but those of its comments, has to be a blank or part of a word.
use crate::cursor::Cursor;
use crate::errors::Expected;
use crate::mistakes::Mistake;
use crate::words::Word;

fn check_line(index: usize, line: &str) -> Result<(), Mistake> {
    let mut cursor = Cursor::new(index, line);
    while !cursor.at_end() {
        if let Word::Stray(_) = cursor.word() {
            return Err(cursor.mistake(Expected::Character));
        }
        cursor.advance();
    }
    Ok(())
}

pub fn check_all(text: &str) -> Result<(), Mistake> {
    for (index, line) in text.lines().enumerate() {
        check_line(index, line)?;
    }
    Ok(())
}
