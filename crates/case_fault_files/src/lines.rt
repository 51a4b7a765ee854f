//! Lines of inputs and of outputs.

/// Whether bytes begin with these.
pub fn begins_with(bytes: &[u8], front: &[u8]) -> bool {
    front.len() <= bytes.len() && &bytes[..front.len()] == front
}

/// The first line without its line feed, and what follows it. `None` if there is no line feed.
fn first_line(bytes: &[u8]) -> Option<(&[u8], &[u8])> {
    let end = bytes.iter().position(|byte| *byte == b'\n')?;
    Some((&bytes[..end], &bytes[end + 1..]))
}

/// How many lines that have ended begin with `ok`.
pub fn ok_lines(bytes: &[u8]) -> usize {
    let mut rest = bytes;
    let mut count: usize = 0;
    for _ in 0..bytes.len() {
        let Some((line, behind)) = first_line(rest) else {
            break;
        };
        if begins_with(line, b"ok ") {
            count = count.saturating_add(1);
        }
        rest = behind;
    }
    count
}

/// How many lines of a journal have ended that are not blank.
pub fn journal_lines(journal: &[u8]) -> usize {
    let mut rest = journal;
    let mut count: usize = 0;
    for _ in 0..journal.len() {
        let Some((line, behind)) = first_line(rest) else {
            break;
        };
        if !is_blank(line) {
            count = count.saturating_add(1);
        }
        rest = behind;
    }
    count
}

/// What follows the separator of a script. Nothing if no separator has ended.
pub fn journal_of(script: &[u8]) -> &[u8] {
    let mut rest = script;
    for _ in 0..script.len() {
        let Some((line, behind)) = first_line(rest) else {
            break;
        };
        rest = behind;
        if line == b"---".as_slice() || line == b"---\r".as_slice() {
            return rest;
        }
    }
    &[]
}

/// The first lines of these bytes, so many, or all bytes if there are fewer.
pub fn first_lines(bytes: &[u8], count: usize) -> &[u8] {
    let mut rest = bytes;
    for _ in 0..count {
        let Some((_, behind)) = first_line(rest) else {
            return bytes;
        };
        rest = behind;
    }
    &bytes[..bytes.len().saturating_sub(rest.len())]
}

/// Whether the line that comes at the end of the front of these bytes, or goes on there, begins with `ok`.
pub fn is_at_ok(bytes: &[u8], front: &[u8]) -> bool {
    let start = match front.iter().rposition(|byte| *byte == b'\n') {
        Some(place) => place + 1,
        None => 0,
    };
    match bytes.get(start..) {
        Some(line) => begins_with(line, b"ok "),
        None => false,
    }
}

fn is_blank(line: &[u8]) -> bool {
    line.iter()
        .all(|byte| matches!(*byte, b' ' | b'\t' | b'\r'))
}
