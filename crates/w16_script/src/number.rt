//! Numbers in text.
ghost use Rattle.std.specs.Prelude.{◌≡◌, ℕ, ◌+◌, ◌*◌, ◌^◌, ◌<◌, ◌≤◌, IfSome, IfNone, Some};
ghost use Rattle.std.specs.Char.{digit_value};
ghost use Rattle.w16_script.specs.Numbers.{IsDigits, IsLiteral, IsForm, IsOfRegister, IsNumber};

use crate::bytes::value_of;
use crate::registers::{Registers, split_register};

/// How many values a word has.
const WORDS: u32 = 65_536;

/// The digit of the base that a byte is.
fn digit_of(byte: u8, base: u32) -> Option<u32>
    requires { base ≤ 16 }
    ensures found { IfSome result (λ digit. (digit ≡ digit_value byte) × (digit < base)) }
    ensures none { IfNone result (base ≤ digit_value byte) }
{
    let digit = u32::from(value_of(byte));
    if digit < base { Some(digit) } else { None }
}

/// The number that digits of the base stand for.
fn digits(text: &[u8], base: u32) -> Option<u32>
    requires { (2 ≤ base) × (base ≤ 16) }
    ensures found { IfSome result (λ n. IsDigits base text.now n) }
    ensures none { IfNone result ((n : ℕ) → n < 2 ^ 32 → IsDigits base text.now n → ⊥) }
{
    let mut value: u32 = 0;
    for byte in text {
        let digit = digit_of(*byte, base)?;
        value = value.checked_mul(base)?.checked_add(digit)?;
    }
    Some(value)
}

/// How many hexadecimal digits a number has at most.
const MOST_DIGITS: usize = 8;

/// A number that stands as it is, in one of the two forms.
pub fn literal(word: &[u8]) -> Option<u32>
    ensures found { IfSome result (λ n. IsLiteral word.now n) }
    ensures none { IfNone result ((n : ℕ) → IsLiteral word.now n → ⊥) }
{
    match word {
        [] => None,
        [b'0', b'x', tail @ ..] => {
            if tail.is_empty() || tail.len() > MOST_DIGITS {
                None
            } else {
                digits(tail, 16)
            }
        }
        _ => digits(word, 10),
    }
}

/// A register's value and a number that stands as it is.
fn sum(value: u32, tail: &[u8]) -> Option<u32>
    ensures found { IfSome result (λ n. (more : ℕ) × IsLiteral tail.now more × (n ≡ value + more)) }
    ensures none { IfNone result ((more : ℕ) → IsLiteral tail.now more → value + more < 2 ^ 32 → ⊥) }
{
    let more = literal(tail)?;
    value.checked_add(more)
}

/// The number that a register's value makes with this after the register's name.
fn form(value: u32, suffix: &[u8]) -> Option<u32>
    ensures found { IfSome result (λ n. IsForm value suffix.now n) }
    ensures none { IfNone result ((n : ℕ) → n < 2 ^ 32 → IsForm value suffix.now n → ⊥) }
{
    match suffix.split_first() {
        None => Some(value),
        Some((b'+', tail)) => sum(value, tail),
        Some((b'.', b"lo")) => Some(value % WORDS),
        Some((b'.', b"hi")) => Some(value / WORDS),
        Some(_) => None,
    }
}

/// The number of a word that begins with a register's name.
fn of_register(word: &[u8], registers: &Registers) -> Option<u32>
    ensures found { IfSome result (λ n. IsOfRegister registers.now word.now n) }
    ensures none { IfNone result ((n : ℕ) → n < 2 ^ 32 → IsOfRegister registers.now word.now n → ⊥) }
{
    let (register, suffix) = split_register(word)?;
    form(registers.get(register), suffix)
}

/// The number that a word is: from a register, or as it stands.
pub fn number(word: &[u8], registers: &Registers) -> Option<u32>
    ensures found { IfSome result (λ n. IsNumber registers.now word.now n) }
    ensures none { IfNone result ((n : ℕ) → IsNumber registers.now word.now n → ⊥) }
{
    match of_register(word, registers) {
        Some(number) => Some(number),
        None => literal(word),
    }
}
