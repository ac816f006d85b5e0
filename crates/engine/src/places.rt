// Where orders lead on an engine whose places are numbered 1, 2, ..: the argument is tried first, then where it leads.
ghost use Rattle.std.specs.Prelude.{◌≡◌};
ghost use Rattle.engine.specs.Mechanisms.{opening as opening_of, onward as onward_of};

use crate::Refusal;

// The opening that an argument names, of so many.
pub fn opening(count: u16, argument: i32) -> Result<u16, Refusal>
    ensures { result ≡ opening_of count argument }
{
    match u16::try_from(argument) {
        Ok(number) if 1 <= number && number <= count => Ok(number),
        _ => Err(Refusal::Argument),
    }
}

// The place so many on from this one, which a skip may name.
pub fn onward(last: u16, place: u16, argument: i32) -> Result<u16, Refusal>
    ensures { result ≡ onward_of last place argument }
{
    let steps = opening(400, argument)?;
    match place.checked_add(steps) {
        Some(to) if to <= last => Ok(to),
        _ => Err(Refusal::Past),
    }
}
