//! Fields of a line, one by one.

ghost use Rattle.std.specs.Prelude.{◌≡◌, ℕ, ◌+◌, ◌<◌, ◌≤◌, List, [], ◌∷◌, length, IfSome, MatchOption, option_copied, position};
ghost use Rattle.protocol.specs.Fields.{fields, is_tab, alone, letter_of, number_of, digit_of, engine_of, mode_of};

use crate::command::{EngineName, ModeName};

// A text at its first tab, if it has one: what stands before it, and what stands after it.
#[tactic(auto, using(crate::proofs::Texts::splits))]
pub(crate) fn split(text: &[u8]) -> Option<(&[u8], &[u8])>
    ensures parts { MatchOption result (fields text.now ≡ text.now ∷ []) (λ p. fields text.now ≡ p.0.now ∷ fields p.1.now) }
    ensures shorter { IfSome result (λ p. length p.0.now + length p.1.now < length text.now) }
{
    let at = first_tab(text)?;
    Some((&text[..at], &text[at + 1..]))
}

fn first_tab(text: &[u8]) -> Option<usize>
    ensures { result ≡ position is_tab text.now }
{
    text.iter().position(|b| *b == b'\t')
}

// The one field of a text without tabs.
#[tactic(auto, using(crate::proofs::Texts::last_fields))]
pub(crate) fn only(text: &[u8]) -> Option<&[u8]>
    ensures field { option_copied result ≡ alone (fields text.now) }
    ensures whole { IfSome result (λ f. f.now ≡ text.now) }
{
    match split(text) {
        Some(_) => None,
        None => Some(text),
    }
}

#[tactic(auto, using(crate::proofs::Digits::decimal_digits), unfolding(crate::specs::Fields::number_of))]
pub(crate) fn number(field: &[u8]) -> Option<u32>
    ensures { result ≡ number_of field.now }
{
    if field.is_empty() || field.len() > 5 {
        return None;
    }
    let mut n = 0;
    for c in field {
        n = 10 * n + digit(*c)?;
    }
    Some(n)
}

fn digit(c: u8) -> Option<u32>
    ensures digit { result ≡ digit_of c }
    ensures small { IfSome result (λ d. d < 10) }
{
    match c {
        b'0'..=b'9' => Some(u32::from(c - b'0')),
        _ => None,
    }
}

#[tactic(auto, using(crate::proofs::Texts::letters))]
fn letter(field: &[u8]) -> Option<char>
    ensures { result ≡ letter_of field.now }
{
    match field {
        [c] => Some(char::from(*c)),
        _ => None,
    }
}

#[tactic(auto, unfolding(crate::specs::Fields::engine_of))]
pub(crate) fn engine(field: &[u8]) -> Option<EngineName>
    ensures { result ≡ engine_of field.now }
{
    match letter(field)? {
        'P' => Some(EngineName::Plain),
        'K' => Some(EngineName::Packed),
        _ => None,
    }
}

#[tactic(auto, unfolding(crate::specs::Fields::mode_of))]
pub(crate) fn mode(field: &[u8]) -> Option<ModeName>
    ensures { result ≡ mode_of field.now }
{
    match letter(field)? {
        'E' => Some(ModeName::Ecb),
        'C' => Some(ModeName::Cbc),
        _ => None,
    }
}
