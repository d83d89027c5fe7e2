// Karp-Rabin fingerprints of byte blocks (document 01, "Fingerprints"; the value of a byte by document 02, A.4).
#![tactic(auto)]

ghost use Rattle.std.specs.Prelude.{◌≡◌, ℕ};
ghost use Rattle.fingerprint.specs.Fingerprint.{
  empty,
  value_of,
  pushed,
  joined,
  joined_by,
  joined_times,
  rest,
  rest_by,
  power,
  multiplied,
  squared,
  key_fits,
  same_key,
  print_fits,
  same,
  byte_print,
  is_byte_print,
  key_number,
  numbered_key,
  print_number,
  numbered_print,
  no_key,
  no_power,
};

// The key r, under which all fingerprints of a signature are taken.
#[derive(Clone, Copy, PartialEq, Eq, Debug)]
pub struct Key {
    pub r: u32,
}

// A power of a key, modulo P.
#[derive(Clone, Copy, PartialEq, Eq, Debug)]
pub struct Power {
    pub value: u32,
}

// The fingerprint of a block of bytes: a number below P.
#[derive(Clone, Copy, PartialEq, Eq, Debug)]
pub struct Fingerprint {
    pub value: u32,
}

impl Key {
    // The key that is this number, within document 01's limits or not.
    pub fn new(r: u32) -> Self
        ensures { result ≡ numbered_key r }
    {
        Self { r }
    }

    // What stands where there is no key.
    pub fn none() -> Self
        ensures { result ≡ no_key }
    {
        Self { r: 0 }
    }

    // Whether it is what stands where there is no key.
    #[tactic(auto, unfolding(crate::specs::Fingerprint::same_key))]
    pub fn is_none(self) -> bool
        ensures { result ≡ same_key self no_key }
    {
        self == Self::none()
    }

    // The number that the key is. (A method and no From, as `new` and those of a print: docs/CLAIMS.md names them.)
    pub fn number(self) -> u32
        ensures { result ≡ key_number self }
    {
        self.r
    }

    // Whether r is from 2 to P - 1: document 01's key limits.
    #[tactic(auto, unfolding(crate::specs::Fingerprint::key_fits))]
    pub fn fits(self) -> bool
        ensures { result ≡ key_fits self }
    {
        2 <= self.r && (self.r as u64) <= Fingerprint::P - 1
    }

    // r to the n, modulo P. Each turn halves the exponent left and squares the base: product × base^left stays the power wanted.
    pub fn power(self, n: u64) -> Power
        ensures { result ≡ power self n }
    {
        let mut product = Power { value: 1 };
        if n == 0 {
            return product;
        }
        let mut base = product.times(Power { value: self.r }); // r, below P
        let mut left = n;
        while 1 < left {
            if left % 2 == 1 {
                product = product.times(base);
            }
            base = base.squared();
            left /= 2;
        }
        product.times(base)
    }
}

impl Power {
    // What stands where there is no power.
    pub fn none() -> Self
        ensures { result ≡ no_power }
    {
        Power { value: 0 }
    }

    // The power whose exponent is the sum of both exponents.
    pub fn times(self, other: Power) -> Self
        ensures { result ≡ multiplied self other }
    {
        let product = (self.value as u64) * (other.value as u64);
        Self {
            value: (product % Fingerprint::P) as u32,
        }
    }

    // The power with twice the exponent.
    pub fn squared(self) -> Self
        ensures { result ≡ squared self }
    {
        self.times(self)
    }
}

// The value of a byte: one more than its number, so that a silent stroke counts.
fn value_of(byte: u8) -> u32
    ensures { result ≡ value_of byte }
{
    (byte as u32) + 1
}

impl Fingerprint {
    // The modulus p.
    pub const P: u64 = 2147483647;

    // The fingerprint of no bytes.
    pub fn empty() -> Self
        ensures { result ≡ empty }
    {
        Self { value: 0 }
    }

    // Whether it is the fingerprint of no bytes.
    #[tactic(auto, unfolding(crate::specs::Fingerprint::same))]
    pub fn is_empty(self) -> bool
        ensures { result ≡ same self empty }
    {
        self == Self::empty()
    }

    // The fingerprint of one byte, under any key.
    pub fn of_byte(byte: u8) -> Self
        ensures { result ≡ byte_print byte }
    {
        Self {
            value: value_of(byte),
        }
    }

    // The fingerprint that is this number, below P or not.
    pub fn of_number(n: u32) -> Self
        ensures { result ≡ numbered_print n }
    {
        Self { value: n }
    }

    // The number that the fingerprint is.
    pub fn number(self) -> u32
        ensures { result ≡ print_number self }
    {
        self.value
    }

    // The fingerprint of the block with one byte more.
    pub fn push(self, key: Key, byte: u8) -> Self
        ensures { result ≡ pushed key self byte }
    {
        let sum = (self.value as u64) * (key.r as u64) + (value_of(byte) as u64);
        Self {
            value: (sum % Self::P) as u32,
        }
    }

    // The fingerprint of the block followed by another of `length` bytes, whose fingerprint is `other`.
    pub fn join(self, key: Key, other: Fingerprint, length: u64) -> Self
        ensures { result ≡ joined key self other length }
    {
        self.join_by(other, key.power(length))
    }

    // The same, where `shift` is r to the length of the other block.
    pub fn join_by(self, other: Fingerprint, shift: Power) -> Self
        ensures { result ≡ joined_by shift self other }
    {
        let sum = (self.value as u64) * (shift.value as u64) + (other.value as u64);
        Self {
            value: (sum % Self::P) as u32,
        }
    }

    // The fingerprint of the block followed by another one so many times, where `shift` is r to the length of the other. Each turn halves the
    // times left and joins the other to itself.
    pub fn join_times(self, other: Fingerprint, shift: Power, times: u32) -> Self
        ensures { (key : Key) (n : ℕ) → shift ≡ power key n → result ≡ joined_times key times self other n }
    {
        if times == 0 {
            return self;
        }
        let mut front = self;
        let mut block = other;
        let mut length = shift; // r to the length of the block
        let mut many = times;
        while 1 < many {
            if many % 2 == 1 {
                front = front.join_by(block, length);
            }
            block = block.join_by(block, length);
            length = length.squared();
            many /= 2;
        }
        front.join_by(block, length)
    }

    // The fingerprint of the block's last `length` bytes, where `front` is the fingerprint of the bytes before them.
    pub fn cut(self, key: Key, front: Fingerprint, length: u64) -> Self
        ensures { result ≡ rest key self front length }
    {
        self.cut_by(front, key.power(length))
    }

    // The same, where `shift` is r to the number of those bytes.
    pub fn cut_by(self, front: Fingerprint, shift: Power) -> Self
        ensures { result ≡ rest_by shift self front }
    {
        let past = (front.value as u64) * (shift.value as u64) % Self::P;
        let sum = (self.value as u64) + (Self::P - past);
        Self {
            value: (sum % Self::P) as u32,
        }
    }

    // Whether the number is one that a fingerprint can be: below P.
    #[tactic(auto, unfolding(crate::specs::Fingerprint::print_fits))]
    pub fn fits(self) -> bool
        ensures { result ≡ print_fits self }
    {
        (self.value as u64) < Self::P
    }

    // Whether it is the fingerprint of one byte.
    #[tactic(auto, unfolding(crate::specs::Fingerprint::is_byte_print))]
    pub fn is_of_byte(self) -> bool
        ensures { result ≡ is_byte_print self }
    {
        1 <= self.value && self.value <= 256
    }
}
