// Calls that write into a buffer that they are lent: records, and what is read from MIDI files. The buffer is their last value.
// (The input says which call is made, by its number: a `match` on it says so most plainly.)
use card_core::write_card;
use card_record::write_signature;
use checkpoint_format::Format;
use checkpoint_save::{save, save_behind};
use driver_answers::numbers::{tell_buffer, tell_size, tell_verdict};
use driver_input::{LENT, buffer, byte, from, lend, number, past_buffer};
use driver_values::cards::{CARD, card, key};
use driver_values::watches::{AND_ONE, WATCH, watch};
use midi_file::Bells;
use refusal::Refusal;

// Lends a call the buffer at the front of `rest`, and tells what the call wrote; where it is refused, the bytes used are those used before.
fn tell_written<F: FnOnce(&mut [u8]) -> Result<usize, Refusal>>(
    rt: &HostRuntime,
    rest: &[u8],
    used: usize,
    write: F,
)
    requires { F.IsAlwaysCallable write }
{
    let mut room = [0u8; LENT];
    let lent = lend(rest, &mut room);
    let written = write(lent);
    tell_verdict(rt, &written);
    tell_size(rt, written.unwrap_or(used));
    tell_buffer(rt, lent);
}

fn tell_saved(rt: &HostRuntime, values: &[u8], format: Format) {
    tell_written(
        rt,
        from(values, WATCH),
        0,
        |lent| save(watch(values), format, lent),
    );
}

// The length of the used part stands behind the watch.
fn tell_saved_behind(rt: &HostRuntime, values: &[u8], format: Format) {
    let used = number(values, WATCH) as usize;
    tell_written(rt, from(values, AND_ONE), used, |lent| {
        save_behind(watch(values), format, lent, used)
    });
}

fn tell_midi(rt: &HostRuntime, values: &[u8]) {
    let file = from(values, 2);
    let bells = Bells {
        lowest: byte(values, 0),
        highest: byte(values, 1),
    };
    tell_written(
        rt,
        past_buffer(file),
        0,
        |lent| midi_file::read(buffer(file), bells, lent),
    );
}

pub fn call(rt: &HostRuntime, op: u64, values: &[u8]) {
    match op {
        4 => tell_written(
            rt,
            from(values, CARD),
            0,
            |lent| write_signature(card(values), lent),
        ),
        7 => tell_written(rt, from(past_buffer(values), 1), 0, |lent| {
            write_card(buffer(values), key(past_buffer(values), 0), lent)
        }),
        20 => tell_saved(rt, values, Format::Wide),
        21 => tell_saved_behind(rt, values, Format::Wide),
        22 => tell_saved(rt, values, Format::Narrow),
        23 => tell_saved_behind(rt, values, Format::Narrow),
        _ => tell_midi(rt, values),
    }
}
