//! What a call that may be refused told its caller.

ghost use Rattle.std.specs.Prelude.{◌≡◌};
ghost use Rattle.store_stops.specs.Stops.{answered_of};

use crate::stop::Stop;
use store_types::Refusal;

/// The answer, by which the caller stops where it is a refusal. `Refusal::NoMemory` is no refusal there, but want of memory.
pub fn answered<T>(told: Result<T, Refusal>) -> Result<T, Stop>
    ensures { result ≡ answered_of told }
{
    match told {
        Ok(value) => Ok(value),
        Err(Refusal::NoMemory) => Err(Stop::NoMemory),
        Err(refusal) => Err(Stop::Refused(refusal)),
    }
}
