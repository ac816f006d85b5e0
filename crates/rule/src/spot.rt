// A token as it is stored.
use grammar::Tag;

// Which token it is, and how many bytes stand before it. A number's value is read from the text at its place.
#[derive(Clone, Copy, Debug, PartialEq, Eq)]
pub(crate) struct Spot {
    pub tag: Tag,
    pub place: usize,
}

// What an `ArrayVec` keeps in its unused places; nothing reads it.
impl Default for Spot {
    fn default() -> Spot {
        Spot {
            tag: Tag::LeftSquare,
            place: 0,
        }
    }
}
