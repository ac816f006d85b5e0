// The tokens of rule texts, what their trees are made of, and the refusals of a text.
//
// `specs/` has what this crate is for: how tokens are spelled and cut, the grammar as a relation between tokens and trees, the
// limits, and which texts are read and refused. `proofs/` shows that no text has two trees and none is both read and refused.
#![tactic(auto)]

ghost use Rattle.std.specs.Prelude.{◌≡◌};
ghost use Rattle.grammar.specs.Numbers.{number_of, place_of};
ghost use Rattle.grammar.specs.Theorems.{OneTree, NeverBoth, OneRefusal};

mod text;

// The sign before a term of a sum.
#[derive(Clone, Copy, Debug, PartialEq, Eq)]
pub enum Sign {
    Plus,
    Minus,
}

// What a comparison asks of its two sums.
#[derive(Clone, Copy, Debug, PartialEq, Eq)]
pub enum Relation {
    Equal,
    NotEqual,
    Less,
    LessOrEqual,
    Greater,
    GreaterOrEqual,
}

// A field of a row: the order that made it, that order's argument, and the six columns.
#[derive(Clone, Copy, Debug, PartialEq, Eq)]
pub enum Field {
    Op,
    Arg,
    C1,
    C2,
    C3,
    C4,
    C5,
    C6,
}

// Which token it is. A number's value is not part of its tag.
#[derive(Clone, Copy, Debug, PartialEq, Eq)]
pub enum Tag {
    LeftSquare,
    RightSquare,
    LeftRound,
    RightRound,
    Bar,
    Dot,
    Star,
    Underscore,
    Quote,
    Arrow,
    And,
    Or,
    Not,
    Has,
    True,
    Additive(Sign),
    Relational(Relation),
    Number,
    FieldName(Field),
}

// A name reads a field of the row being matched, or, with `'` after it, of the newest row.
#[derive(Clone, Copy, Debug, PartialEq, Eq)]
pub enum Name {
    Plain(Field),
    Newest(Field),
}

// A term of a sum.
#[derive(Clone, Copy, Debug, PartialEq, Eq)]
pub enum Term {
    Constant(u32),
    Named(Name),
}

// Why a text is not read. A place is a count of the bytes before the thing.
#[derive(Clone, Copy, Debug, PartialEq, Eq)]
pub enum Refusal {
    // the watch number is outside 1 to 65,535
    WatchNumber,
    // the text is over 4,096 bytes
    TextTooLong,
    // the first bytes that are no token, or a number over 1,000,000,000
    NotAToken(usize),
    // the 501st token
    TooManyTokens(usize),
    // a `(` with which more than 16 are open
    TooDeep(usize),
    // the 61st `[`
    TooManyClaims(usize),
    // the first token that no rule has there, or the text's length if more is wanted
    Unexpected(usize),
}

impl Refusal {
    // The number under which editors know this refusal.
    pub fn number(&self) -> u8
        ensures { result ≡ number_of self.now }
    {
        match *self {
            Refusal::WatchNumber => 1,
            Refusal::TextTooLong => 2,
            Refusal::NotAToken(_) => 3,
            Refusal::TooManyTokens(_) => 4,
            Refusal::TooDeep(_) => 5,
            Refusal::TooManyClaims(_) => 6,
            Refusal::Unexpected(_) => 7,
        }
    }

    // Where in the text to look.
    pub fn place(&self) -> usize
        ensures { result ≡ place_of self.now }
    {
        match *self {
            Refusal::WatchNumber => 0,
            Refusal::TextTooLong => 0,
            Refusal::NotAToken(place) => place,
            Refusal::TooManyTokens(place) => place,
            Refusal::TooDeep(place) => place,
            Refusal::TooManyClaims(place) => place,
            Refusal::Unexpected(place) => place,
        }
    }
}

// No text has two lists of tokens or two trees, and under one watch number none has two refusals, or is both allowed and refused.
pub fn readings_are_unique()
    ensures one_tree { OneTree }
    ensures never_both { NeverBoth }
    ensures one_refusal { OneRefusal }
{}
