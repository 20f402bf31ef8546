//! Ends of runs, and the streams on which they write.

ghost use Rattle.std.specs.Prelude.{◌≡◌};
ghost use Rattle.vx_value.specs.Ends.{compare_ends, end_rank};

use crate::name::Name;
use std::cmp::Ordering;

/// The stream on which a text is written.
#[derive(Clone, Copy, Debug, PartialEq, Eq, PartialOrd, Ord)]
pub enum Stream {
    Out,
    Err,
}

/// How a run ends.
#[derive(Debug, Drop)]
pub enum End {
    /// The first frame returned.
    Return,
    /// `System.exit` with this code.
    Exit(i32),
    /// No frame handled an exception of this class.
    Uncaught(Name),
    /// What stands outside the accepted language: the number of its kind from 1 to 8, what it is, and where.
    Unsupported { word: u8, what: Name, place: Name },
    /// The state broke a rule of the instruction at this place.
    Illegal(Name),
    /// The attempts were used up.
    Unfinished,
}

impl End {
    /// The order of ends in a report: by kind, then an exit by its code, and every other end by its parts from left to
    /// right, names by their bytes with a prefix first.
    pub fn compare(&self, other: &End) -> Ordering
        ensures { result ≡ compare_ends self.now other.now }
    {
        match (self, other) {
            (End::Exit(code), End::Exit(other_code)) => code.cmp(other_code),
            (End::Uncaught(class), End::Uncaught(other_class)) => {
                class.bytes().cmp(other_class.bytes())
            }
            (
                End::Unsupported { word, what, place },
                End::Unsupported {
                    word: other_word,
                    what: other_what,
                    place: other_place,
                },
            ) => word
                .cmp(other_word)
                .then(what.bytes().cmp(other_what.bytes()))
                .then(place.bytes().cmp(other_place.bytes())),
            (End::Illegal(place), End::Illegal(other_place)) => {
                place.bytes().cmp(other_place.bytes())
            }
            _ => self.rank().cmp(&other.rank()),
        }
    }

    /// The place of its kind among the six.
    fn rank(&self) -> u8
        ensures { result ≡ end_rank self.now }
    {
        match self {
            End::Return => 0,
            End::Exit(_) => 1,
            End::Uncaught(_) => 2,
            End::Unsupported { .. } => 3,
            End::Illegal(_) => 4,
            End::Unfinished => 5,
        }
    }
}
