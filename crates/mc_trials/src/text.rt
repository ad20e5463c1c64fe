//! Lines of a text.

/// The text before the first line end, without a carriage return, and the text after it; all of it
/// if there is no line end.
pub fn split_line(text: &[u8]) -> (&[u8], &[u8]) {
    match text.iter().position(|byte| *byte == b'\n') {
        Some(end) => {
            let (line, _) = text.split_at(end);
            let (_, rest) = text.split_at(end + 1);
            (without_return(line), rest)
        }
        None => (text, &[]),
    }
}

/// The line without a trailing carriage return.
fn without_return(line: &[u8]) -> &[u8] {
    match line {
        [front @ .., b'\r'] => front,
        _ => line,
    }
}
