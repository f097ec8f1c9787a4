// Why words give no job.
ghost use Rattle.std.specs.Prelude.{◌≡◌};
ghost use Rattle.tam_words.specs.declared.words_error.WordsError.TheVariants.{NoMemory as Wants_memory};
ghost use Rattle.clap.specs.Words.{kind_of};
ghost use Rattle.tam_words.specs.Tells.{words_error_of, words_error_of_kind};

use crate::usage_cause::UsageCause;
use clap::Error;
use clap::error::ErrorKind;
use std::alloc::AllocError;
use tam_msgs::OrderError;

/// Why words give no job: their first fault, or want of memory, which may hide a fault.
#[derive(Clone, Copy, Debug, PartialEq, Eq)]
pub enum WordsError {
    Usage(UsageCause),
    NoMemory,
}

impl From<AllocError> for WordsError {
    ghost from_gives = { λ _ error. error ≡ Wants_memory };

    fn from(_error: AllocError) -> WordsError {
        WordsError::NoMemory
    }
}

impl From<OrderError> for WordsError {
    ghost from_gives = { λ from error. error ≡ words_error_of from };

    fn from(error: OrderError) -> WordsError {
        match error {
            OrderError::Bad { .. } => WordsError::Usage(UsageCause::Order),
            OrderError::NoMemory => WordsError::NoMemory,
        }
    }
}

impl From<Error> for WordsError {
    ghost from_gives = { λ from error. error ≡ words_error_of_kind (kind_of from) };

    fn from(error: Error) -> WordsError {
        match error.kind() {
            ErrorKind::OutOfMemory => WordsError::NoMemory,
            _ => WordsError::Usage(UsageCause::Words),
        }
    }
}
