// Putting tokens into the table, and reading them from it.
ghost use Rattle.std.specs.Prelude.{◌≡◌, [], ◌∷◌, ◌++◌, length, take, drop};
ghost use Rattle.grammar.specs.declared.Refusal.TheVariants.{Unexpected};
ghost use Rattle.rule.specs.Spots.{spot, next_tag};
ghost use Rattle.rule.specs.Stored.{spots_of, symbols_of, place_in, number_in};

use crate::spelling::number_at;
use crate::spot::Spot;
use crate::tokens::Tokens;
use arrayvec::ArrayVec;
use grammar::{Refusal, Tag};

impl<'a> Tokens<'a> {
    // No tokens yet.
    pub(crate) fn new(text: &'a [u8]) -> Tokens<'a>
        ensures text { result.text.now ≡ text.now }
        ensures none { spots_of result ≡ [] }
    {
        Tokens {
            text,
            spots: ArrayVec::new(),
        }
    }

    // One token more, while there is room.
    pub(crate) fn push(&mut self, tag: Tag, place: usize)
        ensures text { self.new.text.now ≡ self.old.text.now }
        ensures more { spots_of self.new ≡ take 501 (spots_of self.old ++ spot tag place ∷ []) }
    {
        if !self.spots.is_full() {
            self.spots.push(Spot { tag, place });
        }
    }

    pub(crate) fn len(&self) -> usize
        ensures { result ≡ length (spots_of self.now) }
    {
        self.spots.len()
    }

    pub(crate) fn spots(&self) -> &[Spot]
        ensures { result.now ≡ spots_of self.now }
    {
        self.spots.as_slice()
    }

    // The tag of the token k, if there is one.
    pub(crate) fn tag(&self, k: usize) -> Option<Tag>
        ensures { result ≡ next_tag (drop k (symbols_of self.now)) }
    {
        self.spots.get(k).map(|spot| spot.tag)
    }

    // The place of the token k, or the text's length.
    pub(crate) fn place(&self, k: usize) -> usize
        ensures { result ≡ place_in self.now k }
    {
        self.spots.get(k).map_or(self.text.len(), |spot| spot.place)
    }

    // The number that stands where the token k does.
    pub(crate) fn number(&self, k: usize) -> u32
        ensures { result ≡ number_in self.now k }
    {
        number_at(self.text, self.place(k))
    }

    // The token k is one with which no rule can go on.
    pub(crate) fn unexpected(&self, k: usize) -> Refusal
        ensures { result ≡ Unexpected (place_in self.now k) }
    {
        Refusal::Unexpected(self.place(k))
    }
}
