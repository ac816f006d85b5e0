// The tokens of a text, in a table of fixed size. It has room for one more than a rule may have, so that the place of the first
// token too many is known.
ghost use Rattle.std.specs.Prelude.{◌≤◌, length};

use crate::spot::Spot;
use arrayvec::ArrayVec;

mod cutting;
mod stored;

#[derive(Drop)]
pub(crate) struct Tokens<'a> {
    text: &'a [u8],
    spots: ArrayVec<Spot, 501>,
    ghost few: { length spots.items ≤ 501 },
}
