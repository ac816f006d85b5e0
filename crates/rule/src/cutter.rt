// Cuts a text into tokens that borrow it, the longest first.
ghost use Rattle.std.specs.Prelude.{◌≡◌, ℕ, ◌-◌, ◌<◌, ◌≤◌, length, IfSome, slice_index};
ghost use Rattle.std.specs.Char.{is_ascii_digit};
ghost use Rattle.std.specs.List.{prefix_len};
ghost use Rattle.grammar.specs.Spelling.{word_part};
ghost use Rattle.grammar.specs.Marks.{mark_of_bytes, mark_of_byte};
ghost use Rattle.rule.specs.Scanning.{is_space, tagged, longest_mark, front, lexed, told, scanned};
ghost use Rattle.std.specs.Iterator.{at_most};

use grammar::{Refusal, Relation, Sign, Tag};

// A token as a part of the text.
#[derive(Clone, Copy, Debug, PartialEq, Eq)]
pub(crate) enum Token<'a> {
    Word(&'a [u8]),
    Number(&'a [u8]),
    Mark(Tag),
}

// A text, and how much of it is cut.
#[derive(Drop)]
pub(crate) struct Cutter<'a> {
    text: &'a [u8],
    at: usize,
    ghost within: { at ≤ length text.now },
}

// A byte that may stand in a word after its first letter.
fn is_word_part(b: u8) -> bool
    ensures { result ≡ word_part b }
{
    b.is_ascii_alphanumeric()
}

// How many spaces stand at the front. This and the two functions below are each one call of the library, at a test of its own: one
// function over any closure would have a longer contract, and one over an enum of tests would switch on it.
fn spaces(bytes: &[u8]) -> usize
    ensures value { result ≡ prefix_len is_space bytes.now }
    ensures within { result ≤ length bytes.now }
{
    bytes.iter().take_while(|b| **b == b' ').count()
}

fn word_len(bytes: &[u8]) -> usize
    ensures value { result ≡ prefix_len word_part bytes.now }
    ensures within { result ≤ length bytes.now }
{
    bytes.iter().take_while(|b| is_word_part(**b)).count()
}

pub(crate) fn digits_len(bytes: &[u8]) -> usize
    ensures value { result ≡ prefix_len is_ascii_digit bytes.now }
    ensures within { result ≤ length bytes.now }
{
    bytes.iter().take_while(|b| b.is_ascii_digit()).count()
}

fn two_byte_mark(a: u8, b: u8) -> Option<Tag>
    ensures { result ≡ tagged (mark_of_bytes a b) }
{
    match (a, b) {
        (b'<', b'>') => Some(Tag::Relational(Relation::NotEqual)),
        (b'<', b'=') => Some(Tag::Relational(Relation::LessOrEqual)),
        (b'>', b'=') => Some(Tag::Relational(Relation::GreaterOrEqual)),
        (b'=', b'>') => Some(Tag::Arrow),
        _ => None,
    }
}

fn one_byte_mark(a: u8) -> Option<Tag>
    ensures { result ≡ tagged (mark_of_byte a) }
{
    match a {
        b'[' => Some(Tag::LeftSquare),
        b']' => Some(Tag::RightSquare),
        b'(' => Some(Tag::LeftRound),
        b')' => Some(Tag::RightRound),
        b'|' => Some(Tag::Bar),
        b'.' => Some(Tag::Dot),
        b'*' => Some(Tag::Star),
        b'_' => Some(Tag::Underscore),
        b'\'' => Some(Tag::Quote),
        b'+' => Some(Tag::Additive(Sign::Plus)),
        b'-' => Some(Tag::Additive(Sign::Minus)),
        b'=' => Some(Tag::Relational(Relation::Equal)),
        b'<' => Some(Tag::Relational(Relation::Less)),
        b'>' => Some(Tag::Relational(Relation::Greater)),
        _ => None,
    }
}

// The longest mark at the front, and its length.
fn longest(bytes: &[u8]) -> Option<(Tag, usize)>
    ensures value { result ≡ longest_mark (slice_index bytes.now 0) (slice_index bytes.now 1) }
    ensures some { IfSome result (λ x. (0 < x.1) × (x.1 ≤ length bytes.now)) }
{
    let (first, rest) = bytes.split_first()?;
    rest.first()
        .and_then(|second| two_byte_mark(*first, *second))
        .map(|tag| (tag, 2))
        .or_else(|| one_byte_mark(*first).map(|tag| (tag, 1)))
}

// The token at the front, and its length; none where no token begins so.
fn lexeme(bytes: &[u8]) -> Option<(Token<'_>, usize)>
    requires { 0 < length bytes.now }
    ensures value { (place : ℕ) → lexed place result ≡ front place bytes.now }
    ensures some { IfSome result (λ x. (0 < x.1) × (x.1 ≤ length bytes.now)) }
{
    let first = bytes[0];
    if first.is_ascii_alphabetic() {
        let n = word_len(bytes);
        return Some((Token::Word(&bytes[..n]), n));
    }
    if first.is_ascii_digit() {
        let n = digits_len(bytes);
        return Some((Token::Number(&bytes[..n]), n));
    }
    longest(bytes).map(|(tag, n)| (Token::Mark(tag), n))
}

impl<'a> Cutter<'a> {
    pub(crate) fn new(text: &'a [u8]) -> Cutter<'a>
        ensures text { result.text.now ≡ text.now }
        ensures at { result.at ≡ 0 }
    {
        Cutter { text, at: 0 }
    }
}

// The tokens and their places, up to the first bytes that are none.
impl<'a> Iterator for Cutter<'a> {
    type Item = Result<(Token<'a>, usize), Refusal>;

    ghost next_gives = { λ s r t. (told r t.at ≡ scanned s.text.now s.at) × (t.text.now ≡ s.text.now) };

    ghost remaining = { λ s. at_most (length s.text.now - s.at) };

    fn next(&mut self) -> Option<Result<(Token<'a>, usize), Refusal>> {
        let text = self.text;
        let place = self.at + spaces(&text[self.at..]);
        if place == text.len() {
            self.at = place;
            return None;
        }
        match lexeme(&text[place..]) {
            Some((token, n)) => {
                self.at = place + n;
                Some(Ok((token, place)))
            }
            None => {
                self.at = text.len();
                Some(Err(Refusal::NotAToken(place)))
            }
        }
    }
}
