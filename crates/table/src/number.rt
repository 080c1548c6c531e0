// Whole numbers as a table's fields write them.
ghost use Rattle.std.specs.Prelude.{◌≡◌, ℕ, ◌≤◌, List, MatchOption, MatchResult};
ghost use Rattle.table.specs.Cells.{cell_of, content};
ghost use Rattle.table.specs.Numbers.{Numeral, Writes, Counts};

use crate::fault::TextFault;
use crate::field::Field;

// The most digits of a number.
const MOST_DIGITS: usize = 7;

// The most digits of a natural number.
const MOST_NATURAL_DIGITS: usize = 10;

// A kind of whole number that a field may write.
pub trait Number: Copy {
    // Which bytes write which number.
    ghost writes: { List ℕ → Self → Type 0 };

    // The number that the bytes write, if they write one.
    fn of_bytes(bytes: &[u8]) -> Option<Self>
        ensures { MatchOption result ((v : Self) → writes bytes.now v → ⊥) (λ v. writes bytes.now v) };
}

// One to seven digits, perhaps after a minus.
impl Number for i32 {
    ghost writes = { Writes };

    fn of_bytes(bytes: &[u8]) -> Option<i32> {
        match bytes {
            [b'-', after @ ..] => {
                let size = digits(after, MOST_DIGITS)?;
                Some(-(size as i32))
            },
            _ => {
                let size = digits(bytes, MOST_DIGITS)?;
                Some(size as i32)
            },
        }
    }
}

// One to ten digits that write a number below 2^32.
impl Number for u32 {
    ghost writes = { Counts };

    fn of_bytes(bytes: &[u8]) -> Option<u32> {
        let value = digits(bytes, MOST_NATURAL_DIGITS)?;
        u32::try_from(value).ok()
    }
}

impl Field<'_> {
    // The number that the field writes; a fault at the field where it writes none.
    pub fn value<N: Number>(self) -> Result<N, TextFault>
        ensures { MatchResult result (λ v. N.writes (content (cell_of self.entry.text)) v) (λ e. (e ≡ TextFault.Malformed self.entry.«record» self.entry.field) × ((v : N) → N.writes (content (cell_of self.entry.text)) v → ⊥)) }
    {
        N::of_bytes(self.word()).ok_or(TextFault::Malformed {
            record: self.record,
            field: self.field,
        })
    }
}

// The value of one to `most` digits, if the bytes are that.
fn digits(bytes: &[u8], most: usize) -> Option<u64>
    requires { most ≤ 19 }
    ensures { MatchOption result ((n : ℕ) → Numeral most bytes.now n → ⊥) (λ n. Numeral most bytes.now n) }
{
    if bytes.is_empty() || bytes.len() > most {
        return None;
    }
    let mut value = 0;
    for byte in bytes {
        if !byte.is_ascii_digit() {
            return None;
        }
        value = value * 10 + u64::from(*byte - b'0');
    }
    Some(value)
}
