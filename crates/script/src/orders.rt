// Orders read from lines.
ghost use Rattle.std.specs.Prelude.{◌≡◌};
ghost use Rattle.script.specs.Orders.{argument_of, order_of};

use engine::Order;
use fields::decimal;

const MOST_DIGITS: usize = 9;

// An optional minus, and one to nine digits.
fn argument(text: &[u8]) -> Option<i32>
    ensures { result ≡ argument_of text.now }
{
    let digits = text.strip_prefix(b"-").unwrap_or(text);
    if digits.len() > MOST_DIGITS || !digits.iter().all(u8::is_ascii_digit) {
        return None;
    }
    decimal(text)
}

// The order that a line has.
pub fn order(line: &[u8]) -> Option<Order>
    ensures { result ≡ order_of line.now }
{
    match line {
        b"T" => Some(Order::Turn),
        [b'O', b' ', text @ ..] => Some(Order::Open(argument(text)?)),
        [b'S', b' ', text @ ..] => Some(Order::Skip(argument(text)?)),
        _ => None,
    }
}
