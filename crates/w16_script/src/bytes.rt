//! Bytes in hexadecimal.
ghost use Rattle.std.specs.Prelude.{◌≡◌, ◌*◌, ◌<◌, List, ℕ, IsTrue, IsFalse, IfSome, IfNone, Ok, MatchOption, length, slice_index};
ghost use Rattle.hex.specs.Hex.{decode_of, encode_lower, hex_digit_value, lower_digits};
ghost use Rattle.w16_script.specs.Grammar.{IsBytes};

/// The most bytes that a command may write.
pub const MOST_BYTES: usize = 1024;

/// What stands in the table for a byte that is no digit.
const NO_DIGIT: u8 = 16;

/// What each byte stands for as a digit.
const VALUES: &[u8; 256] = b"\
    \x10\x10\x10\x10\x10\x10\x10\x10\x10\x10\x10\x10\x10\x10\x10\x10\
    \x10\x10\x10\x10\x10\x10\x10\x10\x10\x10\x10\x10\x10\x10\x10\x10\
    \x10\x10\x10\x10\x10\x10\x10\x10\x10\x10\x10\x10\x10\x10\x10\x10\
    \x00\x01\x02\x03\x04\x05\x06\x07\x08\x09\x10\x10\x10\x10\x10\x10\
    \x10\x0a\x0b\x0c\x0d\x0e\x0f\x10\x10\x10\x10\x10\x10\x10\x10\x10\
    \x10\x10\x10\x10\x10\x10\x10\x10\x10\x10\x10\x10\x10\x10\x10\x10\
    \x10\x0a\x0b\x0c\x0d\x0e\x0f\x10\x10\x10\x10\x10\x10\x10\x10\x10\
    \x10\x10\x10\x10\x10\x10\x10\x10\x10\x10\x10\x10\x10\x10\x10\x10\
    \x10\x10\x10\x10\x10\x10\x10\x10\x10\x10\x10\x10\x10\x10\x10\x10\
    \x10\x10\x10\x10\x10\x10\x10\x10\x10\x10\x10\x10\x10\x10\x10\x10\
    \x10\x10\x10\x10\x10\x10\x10\x10\x10\x10\x10\x10\x10\x10\x10\x10\
    \x10\x10\x10\x10\x10\x10\x10\x10\x10\x10\x10\x10\x10\x10\x10\x10\
    \x10\x10\x10\x10\x10\x10\x10\x10\x10\x10\x10\x10\x10\x10\x10\x10\
    \x10\x10\x10\x10\x10\x10\x10\x10\x10\x10\x10\x10\x10\x10\x10\x10\
    \x10\x10\x10\x10\x10\x10\x10\x10\x10\x10\x10\x10\x10\x10\x10\x10\
    \x10\x10\x10\x10\x10\x10\x10\x10\x10\x10\x10\x10\x10\x10\x10\x10\
";

/// What a table has at a byte.
fn entry(table: &[u8; 256], byte: u8) -> u8
    ensures { result ≡ slice_index table.now byte }
{
    table[byte as usize]
}

/// What a byte stands for as a digit, its letters in either case; [`NO_DIGIT`] where it is none.
pub fn value_of(byte: u8) -> u8
    ensures { MatchOption (hex_digit_value byte) (result ≡ NO_DIGIT) (λ value. (result ≡ value) × (value < NO_DIGIT)) }
{
    entry(VALUES, byte)
}

/// The same without a table, so that many bytes go at once.
#[tactic(auto, using(crate::proofs::DigitLemmas::value_reckoned))]
fn digit_of(byte: u8) -> u8
    ensures { MatchOption (hex_digit_value byte) (result ≡ NO_DIGIT) (λ value. (result ≡ value) × (value < NO_DIGIT)) }
{
    let number = byte.wrapping_sub(b'0');
    let letter = (byte | 0x20).wrapping_sub(b'a');
    if number < 10 {
        number
    } else if letter < 6 {
        letter + 10
    } else {
        NO_DIGIT
    }
}

/// Decodes two digits for each byte, and says whether all were digits. It isn't inlined: where it is, it is no longer known that text and bytes
/// don't overlap, and they go one by one.
#[inline(never)]
fn decode(word: &[u8], bytes: &mut [u8]) -> bool
    requires { length word.now ≡ 2 * length bytes.old }
    ensures length { length bytes.new ≡ length bytes.old }
    ensures ok { IsTrue result → decode_of word.now ≡ Ok bytes.new }
    ensures none { IsFalse result → (other : List ℕ) → decode_of word.now ≡ Ok other → ⊥ }
{
    let mut are_digits = true;
    'pairs: for at in 0..bytes.len() {
        let high = digit_of(word[2 * at]);
        let low = digit_of(word[2 * at + 1]);
        are_digits = are_digits & (high < NO_DIGIT) & (low < NO_DIGIT);
        bytes[at] = high.wrapping_mul(16).wrapping_add(low);
    }
    are_digits
}

/// The digit of a number below 16.
fn digit(value: u8) -> u8
    requires { value < 16 }
    ensures { result ≡ slice_index lower_digits value }
{
    if value < 10 {
        b'0' + value
    } else {
        b'a' + (value - 10)
    }
}

/// Puts the digits of bytes into a text of twice their length. It isn't inlined, as `decode` isn't.
#[inline(never)]
pub fn encode(bytes: &[u8], text: &mut [u8])
    requires { length text.old ≡ 2 * length bytes.now }
    ensures { text.new ≡ encode_lower bytes.now }
{
    'bytes: for at in 0..bytes.len() {
        let byte = bytes[at];
        text[2 * at] = digit(byte / 16);
        text[2 * at + 1] = digit(byte % 16);
    }
}

/// One to 1,024 bytes in hexadecimal of either case, in the room that is lent.
#[tactic(auto, using(crate::proofs::ArgumentLemmas::length_bytes))]
pub fn bytes<'a>(word: &[u8], room: &'a mut [u8; MOST_BYTES]) -> Option<&'a [u8]>
    ensures found { IfSome result (λ bytes. IsBytes word.now bytes.now) }
    ensures none { IfNone result ((bytes : List ℕ) → IsBytes word.now bytes → ⊥) }
{
    let count = word.len() / 2;
    if count == 0 || count > MOST_BYTES || word.len() % 2 != 0 {
        return None;
    }
    let bytes = &mut room[..count];
    if decode(word, bytes) {
        Some(bytes)
    } else {
        None
    }
}
