//! The registers of a script.
ghost use Rattle.std.specs.Prelude.{◌≡◌, ℕ, ◌+◌, ◌<◌, List, ◌∷◌, length, IfSome, IfNone, false, slice_index, slice_set};
ghost use Rattle.w16_kernel.specs.Runs.{reply_of};
ghost use Rattle.w16_script.specs.Registers.{zeros, stored, IsRegister};
ghost use Rattle.w16_script.specs.Numbers.{BeginsWith, is_digit};

use std::marker::Model;
use w16_kernel::Reply;

/// A hundred numbers, `r0` to `r99`.
#[derive(Debug, Drop)]
pub struct Registers {
    values: [u32; 100],
}

impl Model for Registers {
    ghost Value = { List ℕ };

    ghost view = { λ r. r.values };

    ghost invariant = { λ r. length r.values ≡ 100 };
}

impl Registers {
    /// All are 0.
    pub fn new() -> Self
        ensures { result ≡ zeros }
    {
        Registers { values: [0; 100] }
    }

    /// What a register has.
    pub fn get(&self, register: u8) -> u32
        requires { register < 100 }
        ensures { result ≡ slice_index self.now register }
    {
        self.values[register as usize]
    }

    /// Puts a number into a register.
    pub fn set(&mut self, register: u8, value: u32)
        requires { register < 100 }
        ensures { self.new ≡ slice_set self.old register value }
    {
        self.values[register as usize] = value;
    }

    /// Stores a reply in the register that it goes to, if to any. Only a word and a double word are stored.
    pub fn store(&mut self, target: Option<u8>, reply: &Reply<'_>)
        requires { IfSome target (λ r. r < 100) }
        ensures { self.new ≡ stored self.old target (reply_of reply.now) }
    {
        let Some(register) = target else {
            return;
        };
        match reply {
            Reply::Word(word) => self.set(register, *word as u32),
            Reply::Dword(dword) => self.set(register, *dword),
            Reply::Bytes(_) | Reply::Done | Reply::Fault(_) | Reply::Failed(_) | Reply::Walk(_) =>
                {}
        }
    }
}

/// The digit that the text begins with, and what stands after it.
fn split_digit(text: &[u8]) -> Option<(u8, &[u8])>
    ensures found { IfSome result (λ split. (split.0 < 10) × (text.now ≡ (48 + split.0) ∷ split.1.now)) }
    ensures none { IfNone result (is_digit 10 (slice_index text.now 0) ≡ false) }
{
    match text {
        [digit @ b'0'..=b'9', rest @ ..] => Some((*digit - b'0', rest)),
        _ => None,
    }
}

/// The register that the text begins with, and what stands after its name, which is no digit.
pub fn split_register(text: &[u8]) -> Option<(u8, &[u8])>
    ensures found { IfSome result (λ split. BeginsWith text.now split.0 split.1.now) }
    ensures small { IfSome result (λ split. split.0 < 100) }
    ensures none { IfNone result ((r : ℕ) (rest : List ℕ) → BeginsWith text.now r rest → ⊥) }
{
    let Some((b'r', name)) = text.split_first() else {
        return None;
    };
    let (first, rest) = split_digit(name)?;
    let Some((second, behind)) = split_digit(rest) else {
        return Some((first, rest));
    };
    if first == 0 {
        return None;
    }
    match split_digit(behind) {
        Some(_) => None,
        None => Some((first * 10 + second, behind)),
    }
}

/// The register of this name.
#[tactic(auto, using(crate::proofs::RegisterLemmas::not_named))]
pub fn register(word: &[u8]) -> Option<u8>
    ensures found { IfSome result (λ r. IsRegister word.now r) }
    ensures none { IfNone result ((r : ℕ) → IsRegister word.now r → ⊥) }
{
    let (register, rest) = split_register(word)?;
    if rest.is_empty() {
        Some(register)
    } else {
        None
    }
}
