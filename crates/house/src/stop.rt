// What stops the reading of a table, before the line is known.
ghost use Rattle.house.specs.Stop.{IsRefusal};

use crate::error::Expected;
use crate::place::{Place, Section};
use std::alloc::{AllocError, AllocFailed, Global};

#[derive(Drop)]
pub(crate) enum Stop {
    OutOfMemory,
    Refused(Place, Expected),
}

impl From<AllocError> for Stop {
    ghost from_gives = { λ _ stop. ¬ IsRefusal stop };

    fn from(_error: AllocError) -> Stop {
        Stop::OutOfMemory
    }
}

impl<T: Drop> From<AllocFailed<T>> for Stop {
    ghost from_gives = { λ _ stop. ¬ IsRefusal stop };

    fn from(_error: AllocFailed<T>) -> Stop {
        Stop::OutOfMemory
    }
}

impl Stop {
    // A stop at a key of a table.
    pub(crate) fn at(heap: Global, section: Section, key: &str, expected: Expected) -> Stop {
        match String::from_str(heap, key) {
            Ok(key) => Stop::Refused(Place { section, key }, expected),
            Err(_) => Stop::OutOfMemory,
        }
    }

    // A stop at a number that is a key of a table.
    pub(crate) fn at_number(
        heap: Global,
        section: Section,
        number: i64,
        expected: Expected,
    ) -> Stop {
        match format!(in heap; "{number}") {
            Ok(key) => Stop::Refused(Place { section, key }, expected),
            Err(_) => Stop::OutOfMemory,
        }
    }
}
