// A rack's places, names and reports. The values of a call stand one behind another.
// (The input says which call is made, by its number: a `match` on it says so most plainly.)
use driver_answers::numbers::{tell, tell_size, tell_whether, tell_word};
use driver_answers::values::tell_place;
use driver_input::{flag, from, half, number, word};
use driver_values::cards::{CARD, card, key};
use driver_values::racks::{PLACE, WHOLE, labels, place, rack};
use driver_values::watches::{ANSWER, answer, mark};
use rack::Rack;
use rack_names::{CARDS, lowest, seen_apart};
use rack_place::{Place, begun_fits, card_fits, free_place, place_of};
use rack_report::Report;

// How many numbers stand before the start that is said where a report has none.
const BEFORE_OTHER: u32 = 1 + ANSWER;

fn tests(rt: &HostRuntime, place: Place, name: u16) {
    tell_whether(rt, place.is_free());
    tell_whether(rt, place.has_name(name));
    tell_word(rt, place.label());
    tell_whether(rt, place.is_clear());
    tell_whether(rt, place.free_fits());
}

// A place, or the number of places where there is none.
fn tell_found(rt: &HostRuntime, found: Option<usize>) {
    tell_size(rt, found.unwrap_or(CARDS));
}

fn find(rt: &HostRuntime, rack: Rack, name: u16) {
    tell_found(rt, place_of(rack.places, name));
    tell_found(rt, free_place(rack.places));
}

fn report(values: &[u8]) -> Report {
    Report {
        name: half(values, 0),
        answer: answer(from(values, 1)),
    }
}

fn put_in(values: &[u8]) -> Place {
    Place::with(half(values, 0), number(values, 1), card(from(values, 2)))
}

pub fn call(rt: &HostRuntime, op: u64, values: &[u8]) {
    match op {
        37 => tell_place(rt, put_in(values)),
        38 => tests(rt, place(values), half(values, PLACE)),
        39 => find(rt, rack(values), half(values, WHOLE)),
        40 => tell_whether(rt, begun_fits(key(values, 0), mark(from(values, 1)))),
        41 => tell_whether(rt, card_fits(card(values), key(values, CARD))),
        42 => tell_whether(rt, seen_apart(flag(values, 0), labels(from(values, 1)))),
        43 => tell_found(rt, lowest(labels(values), word(values, CARDS as u32))),
        44 => tell(rt, report(values).start(number(values, BEFORE_OTHER))),
        _ => {}
    }
}
