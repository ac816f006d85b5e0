// The cases that the lines of the input hold.
ghost use Rattle.std.specs.Iterator.{IsFinite};

use crate::halting::Halting;
use engine::{Call, Fault, Order};
use std::alloc::{AllocError, Global};

// More watches than this are no case.
const MOST_WATCHES: usize = 3;

// What the watches of a case stand over.
#[derive(Drop)]
pub(crate) enum Ground {
    Calendar,
    File(Vec<i32>),
    Halting(Halting),
}

// The number of a watch, and the text of its rule.
#[derive(Clone, Copy)]
pub(crate) struct Setting<'a> {
    pub number: i32,
    pub text: &'a str,
}

// An engine, the calls to send, and the watches, the innermost first.
#[derive(Drop)]
pub(crate) struct Case<'a> {
    pub ground: Ground,
    pub calls: Vec<Call>,
    pub settings: Vec<Setting<'a>>,
}

impl<'a> Case<'a> {
    // The case of a line: the engine, the calls, and each watch, with a `;` between them.
    pub(crate) fn of(heap: Global, line: &'a str) -> Result<Option<Case<'a>>, AllocError> {
        let Some((engine, rest)) = line.split_once(';') else {
            return Ok(None);
        };
        let (calls, watches) = rest.split_once(';').unwrap_or((rest, ""));
        let ground = ground_of(heap, engine)?;
        let calls = all(heap, calls.split_whitespace(), call)?;
        let settings = settings_of(heap, watches)?;
        match (ground, calls, settings) {
            (Some(ground), Some(calls), Some(settings)) => Ok(Some(Case {
                ground,
                calls,
                settings,
            })),
            _ => Ok(None),
        }
    }
}

// An engine: `calendar`, `file` with the words of a column file, or `halting` with the number of orders at which it halts, and
// the watch, the row and the rise of its fault.
fn ground_of(heap: Global, text: &str) -> Result<Option<Ground>, AllocError> {
    let (name, rest) = text.split_once(' ').unwrap_or((text, ""));
    match name {
        "calendar" => Ok(Some(Ground::Calendar)),
        "halting" => Ok(halting(rest)),
        "file" => match all(heap, rest.split_whitespace(), |word| word.parse().ok())? {
            Some(words) => Ok(Some(Ground::File(words))),
            None => Ok(None),
        },
        _ => Ok(None),
    }
}

fn halting(text: &str) -> Option<Ground> {
    let (limit, fault) = text.split_once(' ')?;
    let (watch, place) = fault.split_once(' ')?;
    let (row, rise) = place.split_once(' ')?;
    let fault = Fault {
        watch: watch.parse().ok()?,
        row: row.parse().ok()?,
        rise: rise.parse().ok()?,
    };
    Some(Ground::Halting(Halting::new(limit.parse().ok()?, fault)))
}

// What the words are read as, if each can be read.
fn all<'a, T: Drop, I: Iterator<Item = &'a str> + Drop, F: Fn(&'a str) -> Option<T> + Drop>(
    heap: Global,
    words: I,
    read: F,
) -> Result<Option<Vec<T>>, AllocError>
    requires can { I.can_next words }
    requires finite { IsFinite (I.remaining words) }
    requires callable { F.IsAlwaysCallable read }
{
    let mut things = Vec::new(heap);
    for word in words {
        let Some(thing) = read(word) else {
            return Ok(None);
        };
        things.push(thing)?;
    }
    Ok(Some(things))
}

// A call: `c` and a column, an order that is given, or `?` and an order that is asked about.
fn call(word: &str) -> Option<Call> {
    if let Some(column) = word.strip_prefix('c') {
        return Some(Call::Show(column.parse().ok()?));
    }
    if let Some(asked) = word.strip_prefix('?') {
        return Some(Call::Would(order(asked)?));
    }
    Some(Call::Give(order(word)?))
}

// An order: `o` and the argument of an open, `t`, or `s` and the argument of a skip.
fn order(word: &str) -> Option<Order> {
    if let Some(argument) = word.strip_prefix('o') {
        return Some(Order::Open(argument.parse().ok()?));
    }
    if let Some(argument) = word.strip_prefix('s') {
        return Some(Order::Skip(argument.parse().ok()?));
    }
    if word == "t" { Some(Order::Turn) } else { None }
}

// Watches, with a `;` between them: each is a number, a blank and the text of a rule.
fn settings_of<'a>(heap: Global, text: &'a str) -> Result<Option<Vec<Setting<'a>>>, AllocError> {
    if text.is_empty() {
        return Ok(Some(Vec::new(heap)));
    }
    // one more than a case may have is enough to see that there are too many
    let settings = all(heap, text.split(';').take(MOST_WATCHES + 1), setting_of)?;
    Ok(settings.filter(|settings| settings.len() <= MOST_WATCHES))
}

fn setting_of<'a>(watch: &'a str) -> Option<Setting<'a>> {
    let (number, text) = watch.split_once(' ')?;
    Some(Setting {
        number: number.parse().ok()?,
        text,
    })
}
