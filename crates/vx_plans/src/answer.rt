//! What a command gives that refuses nothing.

ghost use Rattle.std.specs.Prelude.{◌≡◌};
ghost use Rattle.vx_plans.specs.Answers.{said_of};

use crate::status::Status;

/// A text, and the status with which a call ends that has written it.
#[derive(Drop)]
pub struct Answer {
    pub text: Vec<u8>,
    pub last: Status,
}

/// A text behind which the call is done.
pub fn done(text: Vec<u8>) -> Answer
    ensures { said_of result ≡ (text.items, Status.Done) }
{
    Answer {
        text,
        last: Status::Done,
    }
}
