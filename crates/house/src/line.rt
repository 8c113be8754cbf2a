// The line of a text on which a place of the settings stands (docs/SETTINGS.md, section 3).
use crate::place::{Place, Section};

// What stands behind a name, where a line begins with it.
fn behind<'a>(line: &'a str, name: &str) -> Option<&'a str> {
    let rest = line.strip_prefix(name)?;
    let goes_on = rest
        .bytes()
        .next()
        .is_some_and(|b| b.is_ascii_alphanumeric() || b == b'_' || b == b'-');
    (!goes_on).then_some(rest)
}

// The name in a header, without its brackets and the blanks in them.
fn header(line: &str) -> Option<&str> {
    let rest = line.strip_prefix('[')?;
    let rest = rest.strip_prefix('[').unwrap_or(rest);
    let name = rest.split_once(']').map_or(rest, |parts| parts.0);
    Some(name.trim())
}

// The first line that is a header with this key, behind `before`, or, over all headers, that begins with it; else 1.
fn first_line(text: &str, before: &str, key: &str) -> usize {
    let mut inside = false;
    for (at, line) in text.lines().enumerate() {
        let line = line.trim_start();
        let name = match header(line) {
            Some(name) => {
                inside = true;
                name
            }
            None if inside => continue,
            None => line,
        };
        if let Some(rest) = name.strip_prefix(before) {
            if behind(rest, key).is_some() {
                return at.saturating_add(1);
            }
        }
    }
    1
}

// The line of a key in the nth table of a name, else the line of that table's header, else 1.
fn key_line(text: &str, table: &str, nth: usize, key: &str) -> usize {
    let mut found = 1;
    let mut headers: usize = 0;
    let mut inside = false;
    for (at, line) in text.lines().enumerate() {
        let line = line.trim_start();
        if let Some(name) = header(line) {
            if inside {
                return found;
            }
            if name == table {
                headers = headers.saturating_add(1);
                if headers == nth {
                    inside = true;
                    found = at.saturating_add(1);
                }
            }
        } else if inside && !key.is_empty() && behind(line, key).is_some() {
            return at.saturating_add(1);
        }
    }
    found
}

// The line of a key in the table `own` that belongs to the nth table of a name, where it has a header: else the line of
// that header. None where there is no such header.
fn own_line(text: &str, table: &str, nth: usize, own: &str, key: &str) -> Option<usize> {
    let mut found = None;
    let mut headers: usize = 0;
    for (at, line) in text.lines().enumerate() {
        let line = line.trim_start();
        if let Some(name) = header(line) {
            if found.is_some() {
                return found;
            }
            if name == table {
                headers = headers.saturating_add(1);
            }
            if name == own && headers.max(1) == nth {
                found = Some(at.saturating_add(1));
            }
        } else if found.is_some() && !key.is_empty() && behind(line, key).is_some() {
            return Some(at.saturating_add(1));
        }
    }
    found
}

/// The line of a place, counted from 1.
pub(crate) fn line_of(text: &str, place: &Place) -> usize {
    let key = place.key.as_str();
    match place.section {
        Section::Document if key.is_empty() => 1,
        Section::Document => first_line(text, "", key),
        Section::Instruments if key.is_empty() => first_line(text, "", "instrument"),
        Section::Instruments => first_line(text, "instrument.", key),
        Section::Instrument => key_line(text, "instrument.1", 1, key),
        Section::Centre => key_line(text, "centre", 1, key),
        Section::Accounts => own_line(text, "centre", 1, "centre.accounts", key).unwrap_or_else(
            || key_line(text, "centre", 1, "accounts"),
        ),
        Section::Layer(nth) => key_line(text, "cap", nth, key),
        Section::Members(nth) => own_line(text, "cap", nth, "cap.members", key).unwrap_or_else(
            || key_line(text, "cap", nth, "members"),
        ),
        Section::Caps(nth) => own_line(text, "cap", nth, "cap.caps", key).unwrap_or_else(
            || key_line(text, "cap", nth, "caps"),
        ),
    }
}

/// The line on which a byte of a text stands, counted from 1.
pub(crate) fn line_at(text: &[u8], byte: usize) -> usize {
    text.iter()
        .take(byte)
        .filter(|b| **b == b'\n')
        .count()
        .saturating_add(1)
}
