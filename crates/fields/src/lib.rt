// The fields of a record, little-endian numbers in a slice of bytes, each of a width: one writer and one reader (document 01, "Records").
#![tactic(auto)]

ghost use Rattle.std.specs.Prelude.{◌≡◌, ◌+◌, ◌^◌, ◌≤◌, ◌<◌, leb, length};
ghost use Rattle.fields.specs.Fields.{little_endian, number_from, number_at, pasted};
ghost use Rattle.fields.specs.Calls.{width_of, number_of, field_at, put_at};

// How many bytes a field has: 2, 4 or 8.
#[derive(Clone, Copy, PartialEq, Eq, Debug)]
pub enum Width {
    Half,
    Word,
    Double,
}

impl Width {
    pub fn bytes(self) -> usize
        ensures { result ≡ width_of self }
    {
        match self {
            Width::Half => 2,
            Width::Word => 4,
            Width::Double => 8,
        }
    }
}

// Whether n bytes stand from `at` on, where there are `len` in all. (One line, as in notes and report_lines for sizes of their own.)
fn reaches(len: usize, at: usize, n: usize) -> bool
    ensures { result ≡ leb (at + n) len }
{
    n <= len && at <= len - n
}

// Writes the low bytes of a number, the lowest first.
fn write(field: &mut [u8], value: u64)
    ensures { field.new ≡ little_endian (length field.old) value }
{
    let mut rest = value;
    for byte in field.iter_mut() {
        *byte = (rest % 256) as u8;
        rest /= 256;
    }
}

// The number in so many bytes, of which the last is the highest.
fn read(field: &[u8]) -> u64
    requires { length field.now ≤ 8 }
    ensures { (result ≡ number_from field.now 0 (length field.now)) × (result < 256 ^ length field.now) }
{
    let mut number = 0;
    for byte in field.iter().rev() {
        number = 256 * number + (*byte as u64);
    }
    number
}

// Writes a field: the low bytes of the value, from `at` on. Where there is no room for them the buffer stays as it was.
pub fn put(buf: &mut [u8], at: usize, width: Width, value: u64)
    ensures { buf.new ≡ put_at buf.old at (width_of width) value }
{
    let n = width.bytes();
    if reaches(buf.len(), at, n) {
        write(&mut buf[at..at + n], value);
    }
}

// Reads a field: the number in the bytes from `at` on, if they are there.
pub fn field_at(buf: &[u8], at: usize, width: Width) -> Option<u64>
    ensures answer { result ≡ field_at buf.now at (width_of width) }
    ensures bound { number_of result < 256 ^ width_of width }
{
    let n = width.bytes();
    if reaches(buf.len(), at, n) {
        Some(read(&buf[at..at + n]))
    } else {
        None
    }
}

// The number in the bytes from `at` on, 0 where it is missing.
pub fn number_at(buf: &[u8], at: usize, width: Width) -> u64
    ensures answer { result ≡ number_at buf.now at (width_of width) }
    ensures bound { result < 256 ^ width_of width }
{
    // (`unwrap_or(0)` would do: that field readers use let else is document 01's form.)
    let Some(number) = field_at(buf, at, width) else {
        return 0;
    };
    number
}
