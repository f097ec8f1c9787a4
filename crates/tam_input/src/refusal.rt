// What is told in place of an answer.
ghost use Rattle.std.specs.Prelude.{◌≡◌};
ghost use Rattle.tam_input.specs.Inputs.{refusal_of, refusal_of_order, refusal_of_words};
ghost use Rattle.tam_input.specs.Refusing.{refusal_line, refusal_ending, usage_line};

use crate::Ending;
use tam_edge::ReadError;
use tam_msgs::OrderError;
use tam_words::{UsageCause, WordsError};

/// What is told in place of an answer: a fault of the words or of the order file, a file of too many bytes, a read that failed, or
/// want of memory, which may hide each of the others.
///
/// docs/FORMATS.md, "Command line".
#[derive(Clone, Copy, Debug, PartialEq, Eq)]
pub enum Refusal {
    Usage(UsageCause),
    TooLong,
    NotRead,
    NoMemory,
}

impl From<WordsError> for Refusal {
    ghost from_gives = { λ from refusal. refusal ≡ refusal_of_words from };

    fn from(error: WordsError) -> Refusal {
        match error {
            WordsError::Usage(cause) => Refusal::Usage(cause),
            WordsError::NoMemory => Refusal::NoMemory,
        }
    }
}

impl From<OrderError> for Refusal {
    ghost from_gives = { λ from refusal. refusal ≡ refusal_of_order from };

    fn from(error: OrderError) -> Refusal {
        match error {
            OrderError::Bad { .. } => Refusal::Usage(UsageCause::Order),
            OrderError::NoMemory => Refusal::NoMemory,
        }
    }
}

impl From<ReadError> for Refusal {
    ghost from_gives = { λ from refusal. refusal ≡ refusal_of from };

    fn from(error: ReadError) -> Refusal {
        match error {
            ReadError::Fault => Refusal::NotRead,
            ReadError::TooLong => Refusal::TooLong,
            ReadError::NoMemory => Refusal::NoMemory,
        }
    }
}

impl Refusal {
    /// How the program ends.
    pub fn ending(self) -> Ending
        ensures value { result ≡ refusal_ending self }
    {
        match self {
            Refusal::TooLong => Ending::Refused,
            Refusal::Usage(_) => Ending::Usage,
            Refusal::NotRead => Ending::ReadFault,
            Refusal::NoMemory => Ending::NoMemory,
        }
    }

    /// The line that it writes.
    pub fn line(self) -> &'static [u8]
        ensures value { result.now ≡ refusal_line self }
    {
        match self {
            Refusal::TooLong => b"refused too long\n",
            Refusal::Usage(cause) => usage_line(cause),
            Refusal::NotRead => b"read fault\n",
            Refusal::NoMemory => b"no memory\n",
        }
    }
}

fn usage_line(cause: UsageCause) -> &'static [u8]
    ensures value { result.now ≡ usage_line cause }
{
    match cause {
        UsageCause::Words => b"usage Words\n",
        UsageCause::Mode => b"usage Mode\n",
        UsageCause::Extra => b"usage Extra\n",
        UsageCause::Shape => b"usage Shape\n",
        UsageCause::Count => b"usage Count\n",
        UsageCause::Args => b"usage Args\n",
        UsageCause::Order => b"usage Order\n",
        UsageCause::Budget => b"usage Budget\n",
        UsageCause::Frames => b"usage Frames\n",
        UsageCause::Cells => b"usage Cells\n",
        UsageCause::ArgsCount => b"usage ArgsCount\n",
    }
}
