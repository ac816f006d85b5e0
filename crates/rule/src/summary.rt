// What matching asks of a pattern at each row, worked out once.
ghost use Rattle.std.specs.Prelude.{◌≡◌};
ghost use Rattle.rule.specs.Summaries.{summary_of_empty, summary_of_claim, summary_of_alternative, summary_of_sequence, summary_of_star, after};

// `nullable`: it fits the empty list of rows. `claims`: how many claims it has. `last`: those of its claims that can be the last to
// take a row when it fits, bit k for the claim k, counted from 0 from left to right.
#[derive(Clone, Copy, Debug, PartialEq, Eq)]
pub struct Summary {
    pub nullable: bool,
    pub claims: u8,
    pub last: u64,
}

impl Summary {
    // The claims that can be the last to take a row, counted after so many others.
    pub fn last_after(self, others: u8) -> u64
        ensures { result ≡ after others self.last }
    {
        if others < 64 { self.last << others } else { 0 }
    }

    pub(crate) fn of_claim() -> Summary
        ensures { result ≡ summary_of_claim }
    {
        Summary {
            nullable: false,
            claims: 1,
            last: 1,
        }
    }

    pub(crate) fn alternative(self, other: Summary) -> Summary
        ensures { result ≡ summary_of_alternative self other }
    {
        Summary {
            nullable: self.nullable || other.nullable,
            claims: self.claims.saturating_add(other.claims),
            last: self.last | other.last_after(self.claims),
        }
    }

    pub(crate) fn sequence(self, other: Summary) -> Summary
        ensures { result ≡ summary_of_sequence self other }
    {
        let last = other.last_after(self.claims);
        Summary {
            nullable: self.nullable && other.nullable,
            claims: self.claims.saturating_add(other.claims),
            last: if other.nullable {
                self.last | last
            } else {
                last
            },
        }
    }

    pub(crate) fn star(self) -> Summary
        ensures { result ≡ summary_of_star self }
    {
        Summary {
            nullable: true,
            claims: self.claims,
            last: self.last,
        }
    }
}

// The summary of the empty pattern.
impl Default for Summary {
    ghost is_default = { λ s. s ≡ summary_of_empty };

    fn default() -> Summary {
        Summary {
            nullable: true,
            claims: 0,
            last: 0,
        }
    }
}
