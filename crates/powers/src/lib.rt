// The powers of a key that a stroke needs, from one table: r to 1, 2, 4 .. 2^20.
#![tactic(auto)]

ghost use Rattle.std.specs.Prelude.{◌≡◌, ◌≤◌, min};
ghost use Rattle.fingerprint.specs.declared.Key.{Key};
ghost use Rattle.fingerprint.specs.Fingerprint.{power};
ghost use Rattle.signature.specs.Signature.{max_length};
ghost use Rattle.powers.specs.Powers.{squares_of, powers_of, Shifts};

use fingerprint::{Key, Power};
use signature::{MAX_LENGTH, PLACES};
use std::marker::Model;

// r to 1, 2, 4 .. as far as passages of up to so many bytes need it, found once for all that share a key. A clause sees the key and that
// number of bytes: the squares of every table are those of its key.
#[derive(Clone, Copy)]
pub struct Powers {
    key: Key,
    most: u32,
    squares: [Power; PLACES],
}

impl Model for Powers {
    ghost use Rattle.std.specs.Prelude.{◌≡◌, ◌≤◌};
    ghost use Rattle.signature.specs.Signature.{max_length};
    ghost use Rattle.powers.specs.Table.{Table};

    ghost Value = { Table };

    ghost use Rattle.powers.specs.Powers.{squares_of};

    ghost view = { λ a. record { key = a.key; most = a.most } };

    ghost invariant = { λ a. (a.squares ≡ squares_of a.key a.most) × (a.most ≤ max_length) };

    ghost inverse = { λ t. record { key = t.key; most = t.most; squares = squares_of t.key t.most } };
}

// r to 1, 2, 4 .. 2^k for passages of up to so many bytes, and nothing past them.
fn squares(key: Key, most: u32) -> [Power; PLACES]
    requires { most ≤ max_length }
    ensures { result ≡ squares_of key most }
{
    let mut squares = [Power::none(); PLACES];
    let mut square = key.power(1);
    for place in &mut squares[..=signature::levels(most) as usize] {
        *place = square;
        square = square.squared();
    }
    squares
}

impl Powers {
    // The powers of a key, for passages of up to so many bytes.
    pub fn of(key: Key, most: u32) -> Powers
        ensures { result ≡ powers_of key (min most max_length) }
    {
        let most = most.min(MAX_LENGTH);
        Powers {
            key,
            most,
            squares: squares(key, most),
        }
    }

    // The key.
    pub fn key(&self) -> Key
        ensures { result ≡ self.now.key }
    {
        self.key
    }

    // r to the n: by the binary digits of n, as far as the table reaches.
    pub fn raise(&self, n: u32) -> Power
        ensures { result ≡ power self.now.key n }
    {
        if self.most < n {
            return self.key.power(n as u64);
        }
        let mut product = self.key.power(0);
        let mut left = n;
        for square in self.squares {
            if left == 0 {
                break;
            }
            if left % 2 == 1 {
                product = product.times(square);
            }
            left /= 2;
        }
        product
    }

    // r to |P_i| for each tested beginning P_0 .. P_k of a passage of m bytes.
    pub fn shifts(&self, m: u32) -> [Power; PLACES]
        ensures { m ≤ max_length → Shifts self.now.key m result }
    {
        let mut shifts = self.squares;
        if m <= MAX_LENGTH {
            if self.most < m {
                shifts = squares(self.key, m);
            }
            shifts[signature::levels(m) as usize] = self.raise(m);
        }
        shifts
    }
}
