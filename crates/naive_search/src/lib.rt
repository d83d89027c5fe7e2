// A plain search: occurrences by comparing bytes one by one, fingerprints by the rule for one byte more. It shares no code with the matcher,
// and each answer is document 01's definition, on all inputs.
#![tactic(auto)]

ghost use Rattle.std.specs.Prelude.{◌≡◌, ◌+◌, ◌≤◌, length};
ghost use Rattle.fingerprint.specs.Fingerprint.{
  agree_under,
  fp,
  pushed,
  rest_by,
  power,
  multiplied,
  numbered_key,
  print_number,
  numbered_print,
  power_number,
  numbered_power,
};
ghost use Rattle.ladder.specs.Claim.{Occurrence, Collision};
ghost use Rattle.ladder.specs.Prefix.{levels};
ghost use Rattle.naive_search.specs.Search.{Decides, Twin, HasTwin, block_print};

// Document 01's p, written out again: the search shares no code with the fingerprints that it tries.
const MODULUS: u64 = 2147483647;

// Whether a block stands whole in the stream at a start.
pub fn occurs(stream: &[u8], start: usize, block: &[u8]) -> bool
    ensures { Decides result (Occurrence block.now stream.now start) }
{
    block.len() <= stream.len()
        && start <= stream.len() - block.len()
        && &stream[start..start + block.len()] == block
}

// The fingerprint with one byte more.
pub fn more(print: u32, key: u32, byte: u8) -> u32
    ensures { result ≡ print_number (pushed (numbered_key key) (numbered_print print) byte) }
{
    let sum = (print as u64) * (key as u64) + ((byte as u64) + 1);
    (sum % MODULUS) as u32
}

// The fingerprint of a block.
pub fn print_of(block: &[u8], key: u32) -> u32
    ensures { result ≡ print_number (fp (numbered_key key) block.now) }
{
    let mut print: u32 = 0;
    for byte in block {
        print = more(print, key, *byte);
    }
    print
}

// A product modulo p.
fn times(a: u32, b: u32) -> u32
    ensures { result ≡ power_number (multiplied (numbered_power a) (numbered_power b)) }
{
    ((a as u64) * (b as u64) % MODULUS) as u32
}

// The key to the n.
fn weight_of(key: u32, n: usize) -> u32
    ensures { result ≡ power_number (power (numbered_key key) n) }
{
    let mut weight: u32 = 1;
    for _ in 0..n {
        weight = times(weight, key);
    }
    weight
}

// The fingerprint of a block, from that of the bytes up to its end, that of the bytes before it, and the key to its length.
fn cut(upto: u32, before: u32, weight: u32) -> u32
    ensures { result ≡ print_number (rest_by (numbered_power weight) (numbered_print upto) (numbered_print before)) }
{
    let gone = times(before, weight);
    ((upto as u64 + (MODULUS - gone as u64)) % MODULUS) as u32
}

// Whether the bytes at a start of the stream, whose fingerprint is `print`, are a twin of the block, whose fingerprint is `wanted`.
fn is_twin(stream: &[u8], start: usize, block: &[u8], key: u32, print: u32, wanted: u32) -> bool
    requires block_in_bounds { start + length block.now ≤ length stream.now }
    requires print_value { print ≡ block_print key stream.now start (length block.now) }
    requires wanted_value { wanted ≡ print_number (fp (numbered_key key) block.now) }
    ensures { Decides result (Twin key block.now stream.now start) }
{
    print == wanted && !occurs(stream, start, block)
}

// Whether some block of the stream has the length and fingerprint of this one and differs from it.
fn has_twin(stream: &[u8], block: &[u8], key: u32) -> bool
    ensures { Decides result (HasTwin key block.now stream.now) }
{
    let n = block.len();
    if stream.len() < n {
        return false;
    }
    let last = stream.len() - n;
    let wanted = print_of(block, key);
    let weight = weight_of(key, n);
    let mut before: u32 = 0;
    let mut upto = print_of(&stream[..n], key);
    for start in 0..last {
        if is_twin(stream, start, block, key, cut(upto, before, weight), wanted) {
            return true;
        }
        before = more(before, key, stream[start]);
        upto = more(upto, key, stream[start + n]);
    }
    is_twin(stream, last, block, key, cut(upto, before, weight), wanted)
}

// Whether some block of the stream collides with a prefix of the pattern, of length 1, 2, 4 .. or the whole.
pub fn collides(stream: &[u8], pattern: &[u8], key: u32) -> bool
    ensures { Decides result (Collision (agree_under (numbered_key key)) pattern.now stream.now) }
{
    let mut n: usize = 1;
    while n < pattern.len() {
        if has_twin(stream, &pattern[..n], key) {
            return true;
        }
        n *= 2;
    }
    has_twin(stream, pattern, key)
}

// How many stages a pattern of m bytes has: how often it is halved, rounding up, until one byte is left. (The library has no logarithm.)
pub fn stages(m: usize) -> u32
    ensures { result ≡ levels m }
{
    let mut k: u32 = 0;
    let mut rest = m;
    while 1 < rest {
        rest -= rest / 2;
        k += 1;
    }
    k
}
