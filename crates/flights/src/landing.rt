//! What a flight that lands gives.
ghost use Rattle.std.specs.Prelude.{IfSome, Some};
ghost use Rattle.cover_rules.specs.Pages.{IsPageKey};
ghost use Rattle.flights.specs.Landings.{LandsAs};

use crate::clear::Clear;
use crate::flight::Flight;
use cover_rules::PageKey;

/// What a flight that lands gives.
pub enum Landing {
    /// Its page may be kept.
    Clear(Clear),
    /// An invalidation covered its page.
    Voided(PageKey),
    /// It is for no page.
    Unkeyed,
}

// What the flight gives.
pub(crate) fn landing_of(flight: Flight) -> Landing
    requires { IfSome flight.key IsPageKey }
    ensures { LandsAs flight result }
{
    let Flight {
        number: _,
        key,
        auto: _,
        stamp,
        voided,
    } = flight;
    match key {
        None => Landing::Unkeyed,
        Some(key) => {
            if voided {
                Landing::Voided(key)
            } else {
                Landing::Clear(Clear { key, stamp })
            }
        }
    }
}
