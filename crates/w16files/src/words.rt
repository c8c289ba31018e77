//! The words of a line, and texts in answers.
use std::alloc::AllocError;
use std::str::Split;

/// What is left of the words of a line.
pub type Words<'a> = Split<'a, char>;

/// An answer was added to a text, or there was no memory.
pub type Put = Result<(), AllocError>;

/// What a line asks, and the answer that it must have; empty where it has none.
pub fn split(line: &str) -> (&str, &str) {
    line.split_once(" -> ").unwrap_or((line, ""))
}

/// The next word; empty where there is none.
pub fn word<'a>(words: &mut Words<'a>) -> &'a str {
    words.next().unwrap_or("")
}

/// The next word as a decimal number; the highest where it is none.
pub fn number(words: &mut Words<'_>) -> u64 {
    word(words).parse::<u64>().unwrap_or(u64::MAX)
}

/// The number that hexadecimal digits are; the highest where they are none.
pub fn hexadecimal(digits: &str) -> u64 {
    u64::from_str_radix(digits, 16).unwrap_or(u64::MAX)
}

/// Adds bytes to an answer: each as it is where ASCII prints it, and no backslash, else by its code.
pub fn put_text(out: &mut String, bytes: &[u8]) -> Put {
    for byte in bytes {
        if *byte < 32 || 126 < *byte || *byte == b'\\' {
            write!(out, "\\x{byte:02x}")?;
        } else {
            out.push(char::from(*byte))?;
        }
    }
    Ok(())
}

/// The same between quotes.
pub fn put_quoted(out: &mut String, bytes: &[u8]) -> Put {
    out.push_str("'")?;
    put_text(out, bytes)?;
    out.push_str("'")
}

/// Adds bytes to an answer in hexadecimal.
pub fn put_hexadecimal(out: &mut String, bytes: &[u8]) -> Put {
    for byte in bytes {
        write!(out, "{byte:02x}")?;
    }
    Ok(())
}
