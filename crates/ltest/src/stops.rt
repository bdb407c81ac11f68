//! Why no text comes of the bytes of a command's files.

ghost use Rattle.std.specs.Prelude.{◌≡◌};
ghost use Rattle.ltest.specs.Texts.{status_of};
ghost use Rattle.ltest.specs.declared.stops.TextStop.TheVariants.{NoMemory};

use lt_answers::{Refusal, Status};
use std::alloc::AllocError;

/// Why no text comes of the bytes of a command's files.
#[derive(Debug, Drop)]
pub enum TextStop {
    Refused(Refusal),
    NoMemory,
}

impl From<AllocError> for TextStop {
    ghost from_gives = { λ _ e. e ≡ NoMemory };

    fn from(_error: AllocError) -> TextStop {
        TextStop::NoMemory
    }
}

impl From<TextStop> for Status {
    ghost from_gives = { λ stop status. status ≡ status_of stop };

    fn from(stop: TextStop) -> Status {
        match stop {
            TextStop::Refused(why) => Status::Refused(why),
            TextStop::NoMemory => Status::NoMemory,
        }
    }
}
