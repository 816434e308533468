// The registers that a hart keeps, by number and by place.
ghost use Rattle.std.specs.Prelude.{◌≡◌, unwrap_or};
ghost use Rattle.table.specs.Table.{number_at};
ghost use Rattle.exports.specs.Calls.{place};

use registers::{masks, places};
use table::kept;

// The place of the register with a number, or the number of places.
#[unsafe(no_mangle)]
pub extern "C" fn balcumentri_place(number: u64) -> u64
    ensures { result ≡ place number }
{
    let Some((row, _)) = table::lookup(number) else {
        return places::KEPT as u64;
    };
    let at = kept::reach(row, false);
    if at.shows == masks::WORD {
        return at.home as u64;
    }
    places::KEPT as u64
}

// The number of the register at a place, or 4096.
#[unsafe(no_mangle)]
pub extern "C" fn balcumentri_number(place: u64) -> u64
    ensures { result ≡ unwrap_or (number_at place) 4096 }
{
    kept::number(place as usize).unwrap_or(4096)
}
