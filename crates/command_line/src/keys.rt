//! The founding officer's key as a word.

ghost use Rattle.std.specs.Prelude.{◌≡◌, true, option_map, IfSome};
ghost use Rattle.std.specs.List.{list_all};
ghost use Rattle.act_bodies.specs.Keys.{key_of};
ghost use Rattle.act_model.specs.Roster.{IsFounder};
ghost use Rattle.command_line.specs.Keys.{is_key_byte, has_key_length, is_key_rest, is_founder_key, founder_key};

use act_bodies::Key;

fn is_key_byte(byte: u8) -> bool
    ensures { result ≡ is_key_byte byte }
{
    byte.is_ascii_digit() || byte.is_ascii_uppercase() || byte.is_ascii_lowercase() || byte == b'-'
}

fn has_key_length(rest: &[u8]) -> bool
    ensures { result ≡ has_key_length rest.now }
{
    8 <= rest.len() && rest.len() <= 32
}

fn are_key_bytes(rest: &[u8]) -> bool
    ensures { result ≡ list_all is_key_byte rest.now }
{
    rest.iter().all(|byte| is_key_byte(*byte))
}

fn is_key_rest(rest: &[u8]) -> bool
    ensures { result ≡ is_key_rest rest.now }
{
    has_key_length(rest) && are_key_bytes(rest)
}

fn is_founder_key(text: &[u8]) -> bool
    ensures { result ≡ is_founder_key text.now }
{
    match text {
        [] => false,
        [sign, rest @ ..] => *sign == b'+' && is_key_rest(rest),
    }
}

/// The founding officer's key that a word is: a plus sign and 8 to 32 letters, digits and hyphens.
pub fn founder_key(text: &[u8]) -> Option<Key>
    ensures key { result ≡ option_map key_of (founder_key text.now) }
    ensures founder { IfSome result IsFounder }
{
    if is_founder_key(text) {
        Some(Key::new(text))
    } else {
        None
    }
}
