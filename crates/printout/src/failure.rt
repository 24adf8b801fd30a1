// Why there is no text but the line of a fault.
ghost use Rattle.std.specs.Prelude.{◌≡◌};
ghost use Rattle.words.specs.Checks.{fault};
ghost use Rattle.lists.specs.Listing.{refusal_of};
ghost use Rattle.printout.specs.declared.failure.Failure.TheVariants.{Faulty, NoMemory};
ghost use Rattle.printout.specs.Failures.{failure_of};

use crate::Unprinted;
use lists::Unlisted;
use std::alloc::AllocError;
use words::{Fault, Refusal};

/// Why nothing was made of what was handed in.
#[derive(Drop)]
pub enum Failure {
    /// It has a fault, or is too large.
    Faulty(Fault),
    /// There was no memory for it.
    NoMemory,
}

impl From<AllocError> for Failure {
    ghost from_gives = { λ _ why. why ≡ NoMemory };

    fn from(_error: AllocError) -> Failure {
        Failure::NoMemory
    }
}

impl From<Fault> for Failure {
    ghost from_gives = { λ f why. why ≡ Faulty f };

    fn from(fault: Fault) -> Failure {
        Failure::Faulty(fault)
    }
}

impl From<Unlisted> for Failure {
    ghost from_gives = { λ u why. why ≡ Faulty (fault (refusal_of u) 0) };

    fn from(why: Unlisted) -> Failure {
        Failure::Faulty(Fault {
            refusal: why.refusal(),
            place: 0,
        })
    }
}

impl From<Unprinted> for Failure {
    ghost from_gives = { λ u why. why ≡ failure_of u };

    fn from(why: Unprinted) -> Failure {
        match why {
            Unprinted::LongLine => Failure::Faulty(Fault {
                refusal: Refusal::LineTooLong,
                place: 0,
            }),
            Unprinted::NoMemory => Failure::NoMemory,
        }
    }
}
