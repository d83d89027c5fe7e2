// The values of a call as bytes: numbers of 8 bytes each, little-endian, one behind another. A number is found by how many stand before it;
// a buffer is its length and then its bytes, a list its length and then its numbers (differential/calls.py).
#![tactic(auto)]

ghost use Rattle.std.specs.Prelude.{◌≡◌, ◌%◌, ◌≤◌, length, take, drop};
ghost use Rattle.lists.specs.Lists.{tabulate};
ghost use Rattle.driver_input.specs.Input.{number_in, numbers_from, is_set, buffer_in, past_buffer, past_list, lent_buffer, lent_list};

use fields::{Width, number_at};

// The most bytes of a buffer, and the most numbers of a list, that a call is lent.
pub const LENT: usize = 65536;

pub const LIST: usize = 4096;

// The first n bytes, or all where there are fewer.
pub fn until(bytes: &[u8], n: usize) -> &[u8]
    ensures { result.now ≡ take n bytes.now }
{
    &bytes[..n.min(bytes.len())]
}

// The bytes behind the first n, none where there are fewer.
pub fn behind(bytes: &[u8], n: usize) -> &[u8]
    ensures { result.now ≡ drop n bytes.now }
{
    &bytes[n.min(bytes.len())..]
}

// What stands from number i on.
#[tactic(auto, unfolding(crate::specs::Input::numbers_from))]
pub fn from(values: &[u8], i: u32) -> &[u8]
    ensures { result.now ≡ numbers_from values.now i }
{
    behind(values, 8 * (i as usize))
}

// Number i, 0 where it is missing; and the same cut to 32, 16 and 8 bits. One generic function for the three would need a trait that has each
// type's size and its cast: it would be no plainer than three lines.
#[tactic(auto, unfolding(crate::specs::Input::number_in))]
pub fn number(values: &[u8], i: u32) -> u64
    ensures { result ≡ number_in values.now i }
{
    number_at(values, 8 * (i as usize), Width::Double)
}

pub fn word(values: &[u8], i: u32) -> u32
    ensures { result ≡ number_in values.now i % 4294967296 }
{
    (number(values, i) % 4294967296) as u32
}

pub fn half(values: &[u8], i: u32) -> u16
    ensures { result ≡ number_in values.now i % 65536 }
{
    (number(values, i) % 65536) as u16
}

pub fn byte(values: &[u8], i: u32) -> u8
    ensures { result ≡ number_in values.now i % 256 }
{
    (number(values, i) % 256) as u8
}

// Whether number i is another than 0.
pub fn flag(values: &[u8], i: u32) -> bool
    ensures { result ≡ is_set (number_in values.now i) }
{
    0 < number(values, i)
}

// The buffer at the front, and what stands behind it.
#[tactic(auto, unfolding(crate::specs::Input::buffer_in))]
pub fn buffer(values: &[u8]) -> &[u8]
    ensures { result.now ≡ buffer_in values.now }
{
    until(from(values, 1), number(values, 0) as usize)
}

#[tactic(auto, unfolding(crate::specs::Input::past_buffer))]
pub fn past_buffer(values: &[u8]) -> &[u8]
    ensures { result.now ≡ past_buffer values.now }
{
    behind(from(values, 1), number(values, 0) as usize)
}

// What stands behind the list at the front, whose length is cut to 32 bits.
#[tactic(auto, unfolding(crate::specs::Input::past_list))]
pub fn past_list(values: &[u8]) -> &[u8]
    ensures { result.now ≡ past_list values.now }
{
    from(from(values, 1), word(values, 0))
}

// The buffer at the front, to be altered by a call: a copy of it in the room, as much of it as there is room for.
#[tactic(auto, unfolding(crate::specs::Input::lent_buffer))]
pub fn lend<'a>(values: &[u8], room: &'a mut [u8]) -> &'a mut [u8]
    ensures { result.now ≡ lent_buffer values.now (length room.old) }
{
    let bytes = until(buffer(values), room.len());
    let lent = &mut room[..bytes.len()];
    lent.copy_from_slice(bytes);
    lent
}

// Stores the numbers, one in each place.
fn fill_list(values: &[u8], numbers: &mut [u64])
    requires { length numbers.old ≤ 4294967296 }
    ensures { numbers.new ≡ tabulate (number_in values.now) (length numbers.old) }
{
    for (i, place) in numbers.iter_mut().enumerate() {
        *place = number(values, i as u32);
    }
}

// The list at the front, to be altered by a call, in the same way; a number that is missing is 0.
#[tactic(auto, unfolding(crate::specs::Input::lent_list))]
pub fn lend_list<'a>(values: &[u8], room: &'a mut [u64]) -> &'a mut [u64]
    ensures { result.now ≡ lent_list values.now (length room.old) }
{
    let many = (word(values, 0) as usize).min(room.len());
    let list = &mut room[..many];
    fill_list(from(values, 1), list);
    list
}
