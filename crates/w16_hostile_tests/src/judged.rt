//! Forms of replies, and of walks.
use std::str::Split;

/// Whether a text is digits of a hexadecimal number, as they are printed.
fn is_hexadecimal(text: &str) -> bool {
    for byte in text.as_bytes() {
        if !matches!(byte, b'0'..=b'9' | b'a'..=b'f') {
            return false;
        }
    }
    true
}

/// Whether a reply of one line is of a form: a word, a double word, bytes or a fault, done or a fault, done, a bad line.
fn has_form(line: &str, form: char) -> bool {
    let is_fault = matches!(
        line,
        "fault selector" | "fault readonly" | "fault notpresent" | "fault limit" | "fault room"
    );
    match form {
        'w' => line.len() == 4 && is_hexadecimal(line),
        'd' => line.len() == 8 && is_hexadecimal(line),
        'b' => match line.strip_prefix("bytes ") {
            Some(digits) => digits.len() % 2 == 0 && is_hexadecimal(digits),
            None => line == "bytes" || is_fault,
        },
        'o' => line == "ok" || is_fault,
        'k' => line == "ok",
        _ => line == "error syntax",
    }
}

/// Where the part ends that a line of a walk says, if it begins at an address and has whole 32 bytes, and whether it is a hole.
fn part_at(line: &str, at: u32) -> Option<(u32, bool)> {
    let (start, rest) = line.split_once(" ")?;
    let (size, owner) = rest.split_once(" ")?;
    let bytes = u32::from_str_radix(size, 16).ok()?;
    if !has_form(start, 'd')
        || u32::from_str_radix(start, 16) != Ok(at)
        || bytes == 0
        || bytes % 32 != 0
    {
        return None;
    }
    Some((at.checked_add(bytes)?, owner == "free"))
}

/// Whether the next lines are a walk: parts from 0 to the memory's end, each from where the one before it ends, and no two holes beside each other.
fn is_walk(printed: &mut Split<'_, char>, memory: u32) -> bool {
    let (mut end, mut was_hole) = (0, false);
    for _ in 0..10_000u32 {
        let line = printed.next().unwrap_or("");
        let Some((next, is_hole)) = part_at(line, end) else {
            return line == "end" && end == memory;
        };
        if is_hole && was_hole {
            return false;
        }
        (end, was_hole) = (next, is_hole);
    }
    false
}

/// Whether what was printed are replies of these forms, of which `l` is a walk, and nothing else.
pub fn are_replies(printed: &str, forms: &str, memory: u32) -> bool {
    let mut lines = printed.split('\n');
    for form in forms.chars() {
        let is_right = if form == 'l' {
            is_walk(&mut lines, memory)
        } else {
            has_form(lines.next().unwrap_or(""), form)
        };
        if !is_right {
            return false;
        }
    }
    lines.next() == Some("") && lines.next().is_none()
}
