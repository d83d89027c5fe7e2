// Decimal numbers: read from the digits of a text, and put as digits into a lent buffer.
#![tactic(auto)]

ghost use Rattle.std.specs.Prelude.{◌≡◌, length};
ghost use Rattle.decimal.specs.Decimal.{decimal, parsed, place_behind, buffer_with};

// The most digits that are read.
const MOST_READ: usize = 10;

// The decimal number of at most ten digits that a text says, if it says one.
pub fn parse(text: &[u8]) -> Option<u64>
    ensures { result ≡ parsed text.now }
{
    if text.is_empty() || MOST_READ < text.len() {
        return None;
    }
    let mut value: u64 = 0;
    for &c in text {
        if c < b'0' || b'9' < c {
            return None;
        }
        value = 10 * value + (c - b'0') as u64;
    }
    Some(value)
}

// How many digits a number has.
// (A count beside a number that is divided: the library has no logarithm.)
fn digit_count(n: u64) -> usize
    ensures { result ≡ length (decimal n) }
{
    let mut rest = n;
    let mut count: usize = 1;
    while rest >= 10 {
        rest /= 10;
        count += 1;
    }
    count
}

// Puts a number's digits at a place of the buffer, from the last to the first: the place behind them, or the place itself where the buffer has no
// room for them and is as it was.
pub fn put(buf: &mut [u8], at: usize, n: u64) -> usize
    ensures value { result ≡ place_behind buf.old at n }
    ensures buf_after { buf.new ≡ buffer_with buf.old at n }
{
    let count = digit_count(n);
    if buf.len() < at || buf.len() - at < count {
        return at;
    }
    let mut left = n;
    for place in (at..at + count).rev() {
        buf[place] = b'0' + (left % 10) as u8;
        left /= 10;
    }
    at + count
}
