// What an engine answers.
ghost use Rattle.std.specs.Prelude.{◌≡◌};
ghost use Rattle.engine.specs.declared.answers.OrderError.TheVariants.{Refused, Halted};
ghost use Rattle.engine.specs.declared.answers.ShowError.TheVariants.{Halted as ShowHalted};
ghost use Rattle.engine.specs.Messages.{order_error_message, show_error_message, message};

use crate::Value;

// Why an engine has halted: the number of the watch whose rule failed (0 if an engine that is no watch halted), the row at which
// it did, and the rise, which is how many watches the fault has come up through, at most 255.
#[derive(Clone, Copy, Debug, PartialEq, Eq)]
pub struct Fault {
    pub watch: u16,
    pub row: u32,
    pub rise: u8,
}

// Why a live page refuses an order: its argument is out of range, it leads past the last day or row, or the watch is full.
#[derive(Clone, Copy, Debug, PartialEq, Eq)]
pub enum Refusal {
    Argument,
    Past,
    Full,
}

// Why an order is not carried out, or would not be.
#[derive(Clone, Copy, Debug, PartialEq, Eq)]
pub enum OrderError {
    Refused(Refusal),
    Halted(Fault),
}

// Why nothing is shown.
#[derive(Clone, Copy, Debug, PartialEq, Eq)]
pub enum ShowError {
    NoColumn,
    Halted(Fault),
}

// The answer to an order, or to the question whether it would be taken. `Halted` is also the answer to an order at which the
// engine halts; the question does not foretell that, and gets `Ok`.
pub type Answer = Result<(), OrderError>;

// The answer to the question what a column shows.
pub type Shown = Result<Value, ShowError>;

// The answer to a call, whichever it is.
#[derive(Clone, Copy, Debug, PartialEq, Eq)]
pub enum Reply {
    ToGive(Answer),
    ToShow(Shown),
    ToWould(Answer),
}

impl From<Refusal> for OrderError {
    ghost from_gives = { λ why e. e ≡ Refused why };

    fn from(why: Refusal) -> OrderError {
        OrderError::Refused(why)
    }
}

impl From<Fault> for OrderError {
    ghost from_gives = { λ fault e. e ≡ Halted fault };

    fn from(fault: Fault) -> OrderError {
        OrderError::Halted(fault)
    }
}

impl From<Fault> for ShowError {
    ghost from_gives = { λ fault e. e ≡ ShowHalted fault };

    fn from(fault: Fault) -> ShowError {
        ShowError::Halted(fault)
    }
}

impl OrderError {
    // The number that an editor sees.
    pub fn number(self) -> u8
        ensures { result ≡ (order_error_message self).number }
    {
        match self {
            OrderError::Refused(Refusal::Argument) => 12,
            OrderError::Refused(Refusal::Past) => 13,
            OrderError::Halted(_) => 20,
            OrderError::Refused(Refusal::Full) => 21,
        }
    }
}

impl ShowError {
    // The number that an editor sees.
    pub fn number(self) -> u8
        ensures { result ≡ (show_error_message self).number }
    {
        match self {
            ShowError::NoColumn => 11,
            ShowError::Halted(_) => 20,
        }
    }
}

impl Reply {
    // The number that an editor sees.
    pub fn number(self) -> u8
        ensures { result ≡ (message self).number }
    {
        match self {
            Reply::ToGive(Err(error)) | Reply::ToWould(Err(error)) => error.number(),
            Reply::ToShow(Err(error)) => error.number(),
            _ => 0,
        }
    }

    // The fault that comes with it.
    pub fn fault(self) -> Option<Fault>
        ensures { result ≡ (message self).fault }
    {
        match self {
            Reply::ToGive(Err(OrderError::Halted(fault))) => Some(fault),
            Reply::ToShow(Err(ShowError::Halted(fault))) => Some(fault),
            Reply::ToWould(Err(OrderError::Halted(fault))) => Some(fault),
            _ => None,
        }
    }

    // The value that comes with it.
    pub fn value(self) -> Option<Value>
        ensures { result ≡ (message self).value }
    {
        match self {
            Reply::ToShow(shown) => shown.ok(),
            _ => None,
        }
    }
}
