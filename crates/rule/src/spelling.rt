// Which token a part of the text is.
ghost use Rattle.std.specs.Prelude.{◌≡◌};
ghost use Rattle.rule.specs.Scanning.{piece};
ghost use Rattle.rule.specs.Tagging.{NamesField, Keyword, Valued, Tagged, number_at};

use crate::cutter::{Token, digits_len};
use grammar::{Field, Refusal, Tag};

// The greatest number that a text may have.
const GREATEST: u64 = 1_000_000_000;

// The field that a word names.
fn field(word: &[u8]) -> Option<Field>
    ensures { NamesField word.now result }
{
    match word {
        b"op" => Some(Field::Op),
        b"arg" => Some(Field::Arg),
        b"c1" => Some(Field::C1),
        b"c2" => Some(Field::C2),
        b"c3" => Some(Field::C3),
        b"c4" => Some(Field::C4),
        b"c5" => Some(Field::C5),
        b"c6" => Some(Field::C6),
        _ => None,
    }
}

// The token that a word is.
fn keyword(word: &[u8]) -> Option<Tag>
    ensures { Keyword word.now result }
{
    match word {
        b"and" => Some(Tag::And),
        b"or" => Some(Tag::Or),
        b"not" => Some(Tag::Not),
        b"has" => Some(Tag::Has),
        b"true" => Some(Tag::True),
        _ => field(word).map(Tag::FieldName),
    }
}

// The number that digits are, unless it is over 1,000,000,000. By hand, since `parse` would ask for a text that is UTF-8 and has a digit.
// The cast fits; `try_from` would need a branch that never runs.
fn value(digits: &[u8]) -> Option<u32>
    ensures { Valued digits.now result }
{
    let mut sum: u64 = 0;
    for digit in digits {
        sum = sum * 10 + u64::from(digit.saturating_sub(b'0'));
        if sum > GREATEST {
            return None;
        }
    }
    Some(sum as u32)
}

// The number whose digits stand at a place; 0 if it is over 1,000,000,000, and then `tag_of` has refused the text, so an option would
// never be none where this is called.
pub(crate) fn number_at(text: &[u8], place: usize) -> u32
    ensures { result ≡ number_at text.now place }
{
    let rest = text.get(place..).unwrap_or_default();
    value(&rest[..digits_len(rest)]).unwrap_or(0)
}

// The tag of a token that stands at a place, unless it is a word that no token is, or a number over 1,000,000,000.
pub(crate) fn tag_of(token: Token, place: usize) -> Result<Tag, Refusal>
    ensures { Tagged (piece token.entry) place result }
{
    match token {
        Token::Word(word) => keyword(word).ok_or(Refusal::NotAToken(place)),
        Token::Number(digits) => value(digits)
            .map(|_| Tag::Number)
            .ok_or(Refusal::NotAToken(place)),
        Token::Mark(tag) => Ok(tag),
    }
}
