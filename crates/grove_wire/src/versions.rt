ghost use Rattle.std.specs.Prelude.{◌≡◌};
ghost use Rattle.serde_json.specs.View.{view};
ghost use Rattle.grove_wire.specs.Reading.{version_in};

use crate::{Part, Place, WireFault};
use serde_json::Value;

/// Which forms of accesses a document has.
#[derive(Clone, Copy, Debug, PartialEq, Eq)]
pub enum Version {
    /// Accesses of one slot each.
    First,
    /// Accesses that may tell their length.
    Second,
}

/// The version that a document tells, or the first where it tells none.
#[tactic(auto, unfolding(crate::specs::Reading::version_in))]
pub(crate) fn version_of(document: &Value) -> Result<Version, WireFault>
    ensures { result ≡ version_in (view document.now) }
{
    let Some(version) = document.get("version") else {
        return Ok(Version::First);
    };
    match version.as_u64() {
        Some(1) => Ok(Version::First),
        Some(2) => Ok(Version::Second),
        _ => Err(WireFault::Shape(Place::whole(Part::Whole))),
    }
}
