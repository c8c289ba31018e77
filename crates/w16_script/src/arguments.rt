//! The arguments of commands.
ghost use Rattle.std.specs.Prelude.{◌≡◌, ℕ, ◌≤◌, IfSome, IfNone, List, [], ◌∷◌};
ghost use Rattle.w16_kernel.specs.Runs.{label_of};
ghost use Rattle.w16_script.specs.Words.{words_of};
ghost use Rattle.w16_script.specs.Numbers.{IsNumber};
ghost use Rattle.w16_machine.specs.declared.name.Parameter as asked;
ghost use Rattle.w16_machine.specs.declared.name.Parameter.TheVariants as p;
ghost use Rattle.w16_machine.specs.Rows.{Argument};
ghost use Rattle.w16_script.specs.Grammar.{IsArgument, AreArguments};

use crate::bytes::{MOST_BYTES, bytes};
use crate::number::number;
use crate::registers::Registers;
use crate::text::{label, text};
use crate::words::{has_no_words, split_word};
use w16_kernel::Label;

/// What a word stands for, by its parameter: a number of its type, or a text or a label, which lie in the line.
pub trait Value<'a>: Copy {
    ghost parameter: { asked.Parameter };

    ghost argument: { Self → Argument };

    /// The value that a word is.
    fn read(word: &'a [u8], registers: &Registers) -> Option<Self>
        ensures found { IfSome result (λ value. IsArgument registers.now word.now parameter (argument value)) }
        ensures none { IfNone result ((other : Argument) → IsArgument registers.now word.now parameter other → ⊥) };
}

/// The number that a word is, up to this one.
fn number_up_to(word: &[u8], most: u32, registers: &Registers) -> Option<u32>
    ensures found { IfSome result (λ n. IsNumber registers.now word.now n × (n ≤ most)) }
    ensures none { IfNone result ((n : ℕ) → IsNumber registers.now word.now n → n ≤ most → ⊥) }
{
    let number = number(word, registers)?;
    if number <= most { Some(number) } else { None }
}

/// A word.
impl<'a> Value<'a> for u16 {
    ghost parameter = { p.Word };

    ghost argument = { λ n. Argument.Word n };

    #[tactic(auto, using(crate::proofs::ArgumentLemmas::no_word))]
    fn read(word: &'a [u8], registers: &Registers) -> Option<u16> {
        let number = number_up_to(word, 65_535, registers)?;
        Some(number as u16)
    }
}

/// A double word.
impl<'a> Value<'a> for u32 {
    ghost parameter = { p.Dword };

    ghost argument = { λ n. Argument.Dword n };

    #[tactic(auto, using(crate::proofs::ArgumentLemmas::no_dword))]
    fn read(word: &'a [u8], registers: &Registers) -> Option<u32> {
        number(word, registers)
    }
}

/// A byte.
impl<'a> Value<'a> for u8 {
    ghost parameter = { p.Byte };

    ghost argument = { λ n. Argument.Byte n };

    #[tactic(auto, using(crate::proofs::ArgumentLemmas::no_byte))]
    fn read(word: &'a [u8], registers: &Registers) -> Option<u8> {
        let number = number_up_to(word, 255, registers)?;
        Some(number as u8)
    }
}

/// A number up to this one.
#[derive(Clone, Copy)]
pub struct Count<const MOST: u32> {
    pub number: u32,
    ghost few: { number ≤ MOST },
}

impl<'a, const MOST: u32> Value<'a> for Count<MOST> {
    ghost parameter = { p.Count MOST };

    ghost argument = { λ count. Argument.Count count.number };

    #[tactic(auto, using(crate::proofs::ArgumentLemmas::no_count))]
    fn read(word: &'a [u8], registers: &Registers) -> Option<Count<MOST>> {
        let number = number_up_to(word, MOST, registers)?;
        Some(Count { number })
    }
}

/// A text.
impl<'a> Value<'a> for &'a [u8] {
    ghost parameter = { p.Text };

    ghost argument = { λ text. Argument.Text text.now };

    fn read(word: &'a [u8], registers: &Registers) -> Option<&'a [u8]> {
        text(word)
    }
}

/// A label.
impl<'a> Value<'a> for Label<'a> {
    ghost parameter = { p.Label };

    ghost argument = { λ label. Argument.Label (label_of label) };

    fn read(word: &'a [u8], registers: &Registers) -> Option<Label<'a>> {
        label(word)
    }
}

/// The value that the next word is, and what stands after it.
#[tactic(auto, using(crate::proofs::ArgumentLemmas::no_value))]
fn split_value<'a, V: Value<'a>>(text: &'a [u8], registers: &Registers) -> Option<(V, &'a [u8])>
    ensures found { IfSome result (λ read. (word : List ℕ) × (words_of text.now ≡ word ∷ words_of read.1.now) × IsArgument registers.now word V.parameter (V.argument read.0)) }
    ensures none { IfNone result ((word : List ℕ) (rest : List (List ℕ)) (other : Argument) → words_of text.now ≡ word ∷ rest → IsArgument registers.now word V.parameter other → ⊥) }
{
    let (word, behind) = split_word(text)?;
    let value = V::read(word, registers)?;
    Some((value, behind))
}

/// No arguments.
#[tactic(auto, using(crate::proofs::ArgumentLemmas::nothing_left, crate::proofs::ArgumentLemmas::something_left))]
pub fn nothing(text: &[u8], registers: &Registers) -> Option<()>
    ensures found { IfSome result (λ _. AreArguments registers.now (words_of text.now) [] []) }
    ensures none { IfNone result ((values : List Argument) → AreArguments registers.now (words_of text.now) [] values → ⊥) }
{
    if has_no_words(text) { Some(()) } else { None }
}

/// The one argument that the text is.
#[tactic(auto, using(crate::proofs::ArgumentLemmas::taken))]
pub fn one<'a, V: Value<'a>>(text: &'a [u8], registers: &Registers) -> Option<V>
    ensures found { IfSome result (λ value. AreArguments registers.now (words_of text.now) (V.parameter ∷ []) (V.argument value ∷ [])) }
    ensures none { IfNone result ((values : List Argument) → AreArguments registers.now (words_of text.now) (V.parameter ∷ []) values → ⊥) }
{
    let (value, rest) = split_value(text, registers)?;
    nothing(rest, registers)?;
    Some(value)
}

/// The two arguments that the text is.
#[tactic(auto, using(crate::proofs::ArgumentLemmas::taken))]
#[inline(always)]
pub fn two<'a, V: Value<'a>, W: Value<'a>>(text: &'a [u8], registers: &Registers) -> Option<(V, W)>
    ensures found { IfSome result (λ values. AreArguments registers.now (words_of text.now) (V.parameter ∷ W.parameter ∷ []) (V.argument values.0 ∷ W.argument values.1 ∷ [])) }
    ensures none { IfNone result ((values : List Argument) → AreArguments registers.now (words_of text.now) (V.parameter ∷ W.parameter ∷ []) values → ⊥) }
{
    let (first, rest) = split_value(text, registers)?;
    let second = one(rest, registers)?;
    Some((first, second))
}

/// The three arguments that the text is.
#[tactic(auto, using(crate::proofs::ArgumentLemmas::taken))]
pub fn three<'a, V: Value<'a>, W: Value<'a>, X: Value<'a>>(
    text: &'a [u8],
    registers: &Registers,
) -> Option<(V, W, X)>
    ensures found { IfSome result (λ values. AreArguments registers.now (words_of text.now) (V.parameter ∷ W.parameter ∷ X.parameter ∷ []) (V.argument values.0 ∷ W.argument values.1 ∷ X.argument values.2 ∷ [])) }
    ensures none { IfNone result ((values : List Argument) → AreArguments registers.now (words_of text.now) (V.parameter ∷ W.parameter ∷ X.parameter ∷ []) values → ⊥) }
{
    let (first, rest) = split_value(text, registers)?;
    let (second, third) = two(rest, registers)?;
    Some((first, second, third))
}

/// The bytes that the text is, in the room that is lent.
#[tactic(auto, using(crate::proofs::ArgumentLemmas::taken))]
fn bytes_alone<'a>(
    text: &[u8],
    registers: &Registers,
    room: &'a mut [u8; MOST_BYTES],
) -> Option<&'a [u8]>
    ensures found { IfSome result (λ bytes. AreArguments registers.now (words_of text.now) (p.Bytes ∷ []) (Argument.Bytes bytes.now ∷ [])) }
    ensures none { IfNone result ((values : List Argument) → AreArguments registers.now (words_of text.now) (p.Bytes ∷ []) values → ⊥) }
{
    let (word, rest) = split_word(text)?;
    nothing(rest, registers)?;
    bytes(word, room)
}

/// The two arguments that the text is, the second of them bytes, in the room that is lent.
#[tactic(auto, using(crate::proofs::ArgumentLemmas::taken))]
pub fn with_bytes<'a, V: Value<'a>>(
    text: &'a [u8],
    registers: &Registers,
    room: &'a mut [u8; MOST_BYTES],
) -> Option<(V, &'a [u8])>
    ensures found { IfSome result (λ values. AreArguments registers.now (words_of text.now) (V.parameter ∷ p.Bytes ∷ []) (V.argument values.0 ∷ Argument.Bytes values.1.now ∷ [])) }
    ensures none { IfNone result ((values : List Argument) → AreArguments registers.now (words_of text.now) (V.parameter ∷ p.Bytes ∷ []) values → ⊥) }
{
    let (value, rest) = split_value(text, registers)?;
    let bytes = bytes_alone(rest, registers, room)?;
    Some((value, bytes))
}
