//! Options: a name and a value, as one word `--name=value` or as two words `--name value`.

ghost use Rattle.std.specs.Prelude.{◌≡◌, ◌<◌, ◌==◌, IfSome, length, option_map, position};
ghost use Rattle.command_line.specs.Options.{begins_with_hyphen, in_one_word, in_two_words, option_at, last_option};
ghost use Rattle.command_line.specs.Options.{value_of, one_value, values_of, two_values};

use item_list::Bytes;

/// An option as it was read.
#[derive(Clone, Copy)]
struct Named<'a> {
    name: &'a [u8],
    value: &'a [u8],
}

fn begins_with_hyphen(word: &[u8]) -> bool
    ensures { result ≡ begins_with_hyphen word.now }
{
    match word {
        [] => false,
        [first, ..] => *first == b'-',
    }
}

/// Where the first equals sign stands.
fn equals_sign(word: &[u8]) -> Option<usize>
    ensures place { result ≡ position (λ byte. byte == 61) word.now }
    ensures within { IfSome result (λ place. place < length word.now) }
{
    word.iter().position(|byte| *byte == b'=')
}

fn in_one_word(word: &[u8]) -> Option<Named<'_>>
    ensures { option_map (λ x. (x.name.now, x.value.now)) result ≡ in_one_word word.now }
{
    match equals_sign(word) {
        Some(place) => Some(Named {
            name: word.split_at(place).0,
            value: word.split_at(place + 1).1,
        }),
        None => None,
    }
}

fn in_two_words<'a>(name: &'a [u8], words: &'a [Bytes]) -> Option<(Named<'a>, &'a [Bytes])>
    ensures { option_map (λ x. ((x.0.name.now, x.0.value.now), x.1.now)) result ≡ in_two_words name.now words.now }
{
    match words {
        [] => None,
        [value, rest @ ..] => {
            let value = value.as_slice();
            if begins_with_hyphen(value) {
                return None;
            }
            Some((Named { name, value }, rest))
        }
    }
}

#[tactic(auto, unfolding(crate::specs::Options::option_at))]
fn option_at(words: &[Bytes]) -> Option<(Named<'_>, &[Bytes])>
    ensures { option_map (λ x. ((x.0.name.now, x.0.value.now), x.1.now)) result ≡ option_at words.now }
{
    match words {
        [] => None,
        [word, rest @ ..] => match in_one_word(word.as_slice()) {
            Some(named) => Some((named, rest)),
            None => in_two_words(word.as_slice(), rest),
        },
    }
}

/// The one option that the words are.
#[tactic(auto, unfolding(crate::specs::Options::last_option))]
fn last_option(words: &[Bytes]) -> Option<Named<'_>>
    ensures { option_map (λ x. (x.name.now, x.value.now)) result ≡ last_option words.now }
{
    let (option, rest) = option_at(words)?;
    match rest {
        [] => Some(option),
        [_, ..] => None,
    }
}

fn value_of<'a>(name: &[u8], option: Named<'a>) -> Option<&'a [u8]>
    ensures { option_map (λ x. x.now) result ≡ value_of name.now (option.entry.name.now, option.entry.value.now) }
{
    if option.name == name {
        Some(option.value)
    } else {
        None
    }
}

/// The value of the one option that the words are, which has this name.
#[tactic(auto, unfolding(crate::specs::Options::one_value))]
pub fn one_value<'a>(name: &[u8], words: &'a [Bytes]) -> Option<&'a [u8]>
    ensures { option_map (λ x. x.now) result ≡ one_value name.now words.now }
{
    let option = last_option(words)?;
    value_of(name, option)
}

fn values_of<'a>(
    name: &[u8],
    other: &[u8],
    first: Named<'a>,
    second: Named<'a>,
) -> Option<(&'a [u8], &'a [u8])>
    ensures { option_map (λ x. (x.0.now, x.1.now)) result
        ≡ values_of name.now other.now (first.entry.name.now, first.entry.value.now)
        (second.entry.name.now, second.entry.value.now) }
{
    if first.name == name && second.name == other {
        Some((first.value, second.value))
    } else if first.name == other && second.name == name {
        Some((second.value, first.value))
    } else {
        None
    }
}

/// The values of the two options that the words are, which have these two names and stand in either order.
#[tactic(auto, unfolding(crate::specs::Options::two_values))]
pub fn two_values<'a>(name: &[u8], other: &[u8], words: &'a [Bytes]) -> Option<(&'a [u8], &'a [u8])>
    ensures { option_map (λ x. (x.0.now, x.1.now)) result ≡ two_values name.now other.now words.now }
{
    let (first, behind) = option_at(words)?;
    let second = last_option(behind)?;
    values_of(name, other, first, second)
}
