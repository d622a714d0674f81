// The soundness test: document 01, "Sound means", over bytes of any length. The keys of each unit are read twice, once beside their list and once for
// their digit sums; the field of a record is never read. What is counted of a sound store is handed on, so that no call counts again.
#![tactic(auto)]

mod absent;
mod checks;
mod few;
mod header;
mod keys;
mod list;
mod places;
mod states;
pub mod survey;
mod unit;
mod units;

ghost use Rattle.std.specs.Prelude.{◌≡◌};
ghost use Rattle.model.specs.Sound.{sound};
ghost use Rattle.soundness.specs.Handed.{SurveyOf};
ghost use Rattle.soundness.specs.Survey.{counted_fills};

use header::Header;
use survey::Survey;

// So many slots to a unit are few: there the table of marks costs more than it saves.
const FEW: u8 = 8;

// The keys of the data units in place.
fn count_units(header: Header<'_>) -> Option<[u8; 16]>
    ensures { result ≡ counted_fills header.entry.store.now }
{
    if header.size() <= FEW {
        return few::count_units(header);
    }
    units::count_units(header)
}

// Tests bytes of any length for a sound store, and hands on what the test learned.
pub fn survey_of(s: &[u8]) -> Option<Survey<'_>>
    ensures { SurveyOf s.now result }
{
    if !states::ranges_hold(s) {
        return None;
    }
    if !states::states_hold(s) {
        return None;
    }
    let first_checks = states::first_checks_of(s);
    let outs = states::outs_of(s);
    let header = Header {
        store: s,
        first_checks,
    };
    let fills = count_units(header)?;
    if !absent::columns_empty(header) {
        return None;
    }
    if !checks::checks_good(header) {
        return None;
    }
    if !absent::behind_zero(header) {
        return None;
    }
    Some(Survey {
        store: s,
        fills,
        first_checks,
        outs,
    })
}

// Whether bytes of any length are a sound store.
pub fn is_sound(s: &[u8]) -> bool
    ensures { result ≡ sound s.now }
{
    survey_of(s).is_some()
}
