// Lines, marks and decimal numbers in bytes.
#![tactic(auto)]

ghost use Rattle.std.specs.Prelude.{◌≡◌, ℕ, List, ◌∷◌, ◌<◌, ◌≤◌, length, [], IfSome, IfNone, MatchOption, ◌≢◌, slice_index};
ghost use Rattle.std.specs.Option.{SomeIff};
ghost use Rattle.std.specs.Str.Parse.{signed_digits_value};
ghost use Rattle.std.specs.Iterator.{YieldsFirstRef, item_count};
ghost use Rattle.fields.specs.Fields.{Lacks, Ended};
ghost use Rattle.fields.specs.Lines.{lines_of};
ghost use Rattle.fields.specs.Numbers.{IsDecimal};

use std::marker::Model;
use std::str;

// The lines of some bytes that are left to read, each without its end.
#[derive(Debug, Drop)]
pub struct Lines<'a> {
    rest: &'a [u8],
}

impl<'a> Model for Lines<'a> {
    ghost Value = { List (List ℕ) };

    ghost view = { λ lines. lines_of lines.rest.now };
}

impl<'a> Lines<'a> {
    pub fn new(bytes: &'a [u8]) -> Lines<'a>
        ensures { result ≡ lines_of bytes.now }
    {
        Lines { rest: bytes }
    }
}

impl<'a> Iterator for Lines<'a> {
    type Item = &'a [u8];

    ghost next_gives = { YieldsFirstRef (λ lines. lines) };

    ghost remaining = { item_count (λ lines. lines) };

    fn next(&mut self) -> Option<&'a [u8]> {
        let (line, rest) = first_line(self.rest)?;
        self.rest = rest;
        Some(line)
    }
}

// The first line without its end, and what follows it. Nothing where no bytes are left.
pub fn first_line(bytes: &[u8]) -> Option<(&[u8], &[u8])>
    ensures none { IfNone result (length bytes.now ≡ 0) }
    ensures parted { IfSome result (λ parts. Ended bytes.now parts.0.now parts.1.now) }
    ensures one_line { IfSome result (λ parts. Lacks 10 parts.0.now) }
    ensures shorter { IfSome result (λ parts. length parts.1.now < length bytes.now) }
    ensures cut { MatchOption result (lines_of bytes.now ≡ []) (λ parts. lines_of bytes.now ≡ parts.0.now ∷ lines_of parts.1.now) }
{
    if bytes.is_empty() {
        return None;
    }
    let (line, rest) = bytes.split_at(find(bytes, b'\n'));
    match rest {
        [_, rest @ ..] => Some((line, rest)),
        [] => Some((line, rest)),
    }
}

// The index of the first mark, or the length where there is none, which is where `split_at` is then to cut.
pub fn find(bytes: &[u8], mark: u8) -> usize
    ensures within { result ≤ length bytes.now }
    ensures before { (k : ℕ) → k < result → slice_index bytes.now k ≢ mark }
    ensures found { result < length bytes.now → slice_index bytes.now result ≡ mark }
{
    bytes
        .iter()
        .position(|byte| *byte == mark)
        .unwrap_or(bytes.len())
}

// A number in decimal, as `parse` takes it.
pub fn decimal(text: &[u8]) -> Option<i32>
    ensures { SomeIff result (IsDecimal text.now) (signed_digits_value 10 text.now) }
{
    str::from_utf8(text).ok()?.parse().ok()
}
