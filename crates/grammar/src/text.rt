// How the parts of a tree and refusals print.
ghost use Rattle.std.specs.Prelude.{Some};
ghost use Rattle.grammar.specs.Numbers.{refusal_text};
ghost use Rattle.grammar.specs.Texts.{sign_text, relation_text, field_text, name_text, term_text};

use crate::{Field, Name, Refusal, Relation, Sign, Term};
use std::fmt;

impl fmt::Display for Sign {
    ghost output = { λ s. Some (sign_text s) };

    fn fmt<W: fmt::Write>(&self, f: &mut fmt::Formatter<W>) -> fmt::Result {
        f.write_str(match self {
            Sign::Plus => "+",
            Sign::Minus => "-",
        })
    }
}

impl fmt::Display for Relation {
    ghost output = { λ r. Some (relation_text r) };

    fn fmt<W: fmt::Write>(&self, f: &mut fmt::Formatter<W>) -> fmt::Result {
        f.write_str(match self {
            Relation::Equal => "=",
            Relation::NotEqual => "<>",
            Relation::Less => "<",
            Relation::LessOrEqual => "<=",
            Relation::Greater => ">",
            Relation::GreaterOrEqual => ">=",
        })
    }
}

impl fmt::Display for Field {
    ghost output = { λ x. Some (field_text x) };

    fn fmt<W: fmt::Write>(&self, f: &mut fmt::Formatter<W>) -> fmt::Result {
        f.write_str(match self {
            Field::Op => "op",
            Field::Arg => "arg",
            Field::C1 => "c1",
            Field::C2 => "c2",
            Field::C3 => "c3",
            Field::C4 => "c4",
            Field::C5 => "c5",
            Field::C6 => "c6",
        })
    }
}

impl fmt::Display for Name {
    ghost output = { λ l. Some (name_text l) };

    fn fmt<W: fmt::Write>(&self, f: &mut fmt::Formatter<W>) -> fmt::Result {
        match self {
            Name::Plain(field) => write!(f, "{field}"),
            Name::Newest(field) => write!(f, "{field}'"),
        }
    }
}

impl fmt::Display for Term {
    ghost output = { λ t. Some (term_text t) };

    fn fmt<W: fmt::Write>(&self, f: &mut fmt::Formatter<W>) -> fmt::Result {
        match self {
            Term::Constant(value) => write!(f, "{value}"),
            Term::Named(name) => write!(f, "{name}"),
        }
    }
}

// As editors know it: its number and its place.
// Like that of a file's refusal: a trait for two would be longer.
impl fmt::Display for Refusal {
    ghost output = { λ e. Some (refusal_text e) };

    fn fmt<W: fmt::Write>(&self, f: &mut fmt::Formatter<W>) -> fmt::Result {
        write!(f, "{} at {}", self.number(), self.place())
    }
}
