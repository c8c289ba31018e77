//! Texts and labels. They lie in the line, and nothing is copied.
ghost use Rattle.std.specs.Prelude.{◌≡◌, ◌^◌, ◌<◌, ◌↔◌, ℕ, true, IsTrue, IfSome, IfNone};
ghost use Rattle.std.specs.Char.{is_ascii_graphic};
ghost use Rattle.std.specs.List.{list_all};
ghost use Rattle.w16_model.specs.Commands as commands;
ghost use Rattle.w16_kernel.specs.Runs.{label_of};
ghost use Rattle.w16_script.specs.Numbers.{IsLiteral};
ghost use Rattle.w16_script.specs.Grammar.{IsText, IsLabel};

use crate::number::literal;
use w16_kernel::Label;

/// How many bytes a text has at most.
const LONGEST_TEXT: usize = 255;

/// The largest number that a label may be.
const LARGEST_NUMBER: u32 = 65_535;

/// Whether all bytes are from 21 to 7E in hexadecimal.
fn is_graphic(word: &[u8]) -> bool
    ensures { result ≡ list_all is_ascii_graphic word.now }
{
    word.iter().all(|byte| byte.is_ascii_graphic())
}

/// Whether a word is a text.
fn is_text(word: &[u8]) -> bool
    ensures { IsTrue result ↔ IsText word.now }
{
    !word.is_empty() && word.len() <= LONGEST_TEXT && is_graphic(word)
}

/// The text that a word is.
pub fn text(word: &[u8]) -> Option<&[u8]>
    ensures found { IfSome result (λ text. (text.now ≡ word.now) × IsText word.now) }
    ensures none { IfNone result (IsText word.now → ⊥) }
{
    if is_text(word) { Some(word) } else { None }
}

/// The number that stands after a `#`.
#[tactic(auto, using(crate::proofs::OneNumberLemmas::literal_same))]
fn number_behind(digits: &[u8]) -> Option<u16>
    ensures found { IfSome result (λ n. IsLiteral digits.now n) }
    ensures none { IfNone result ((n : ℕ) → IsLiteral digits.now n → n < 2 ^ 16 → ⊥) }
{
    let number = literal(digits)?;
    if number <= LARGEST_NUMBER {
        Some(number as u16)
    } else {
        None
    }
}

/// The label that a word is: after a `#` a number, else a text.
pub fn label(word: &[u8]) -> Option<Label<'_>>
    ensures found { IfSome result (λ label. IsLabel word.now (label_of label)) }
    ensures none { IfNone result ((label : commands.Label) → IsLabel word.now label → ⊥) }
{
    match word.split_first() {
        Some((b'#', digits)) => match number_behind(digits) {
            Some(number) => Some(Label::Number(number)),
            None => None,
        },
        _ => {
            let text = text(word)?;
            Some(Label::Text(text))
        }
    }
}
