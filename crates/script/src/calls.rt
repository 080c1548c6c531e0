// The calls that records say.
ghost use Rattle.std.specs.Prelude.{◌≡◌, ℕ, ◌+◌, ◌<◌, List, length, MatchResult, slice_index};
ghost use Rattle.table.specs.Cells.{Cell};
ghost use Rattle.table.specs.Lines.{Line, text_at};
ghost use Rattle.table.specs.Numbers.{Counts};
ghost use Rattle.records.specs.Numbers.{Missed};
ghost use Rattle.script.specs.Calls.{Said, Unsaid, SetBy, LentBy, RatesBy, NotRated, factors_of, rater_call, setter_call};
ghost use Rattle.script.specs.Rest.{NotNumbers};
ghost use Rattle.script.specs.Words.{setter_count};
ghost use Rattle.script.specs.declared.words.Setter.TheVariants.{Reduce};

use crate::entries::Entry;
use crate::first::read_first;
use crate::rest::read_naturals;
use crate::words::{Rater, Setter, Verb, kind_of, verb_of};
use card::calls::{AMPLE, Call, Lengths};
use model::lanes::Carriageway;
use model::weights::{Factors, LoadKind};
use records::numbers::read_numbers;
use table::cursor::Cursor;
use table::fault::TextFault;

// How many lengths a rating may be given.
const LENGTHS: usize = 4;

// Field by field: factors are named, and no conversion of an array can tell which is which.
fn factors_of(numbers: [u32; 8]) -> Factors
    ensures { result ≡ factors_of numbers }
{
    let [
        tandem1,
        tandem2,
        tandem3,
        uniform1,
        uniform2,
        uniform3,
        others,
        remaining,
    ] = numbers;
    Factors {
        tandem1,
        tandem2,
        tandem3,
        uniform1,
        uniform2,
        uniform3,
        others,
        remaining,
    }
}

// The carriageway that two numbers say. Like the next, a function of its own, so that a wrong one is refused at this code.
fn kerbs_of(numbers: [u32; 2]) -> Carriageway
    ensures { result ≡ record { first = slice_index numbers 0; width = slice_index numbers 1 } }
{
    let [first, width] = numbers;
    Carriageway { first, width }
}

// The reduction that eight numbers say.
fn reduced_by(numbers: [u32; 8]) -> Call
    ensures { result ≡ setter_call Reduce numbers }
{
    Call::Reduce(factors_of(numbers))
}

// By match on a word, since each makes a call of its own shape.
impl Setter {
    // The call whose numbers begin here, in a record of so many fields.
    fn read(self, here: Cursor<'_>, fields: usize) -> Result<Call, TextFault>
        ensures { (ds : List Cell) (ys : List ℕ) → (0 < length ds → Line ds (text_at here.entry) ys) → length ds + 1 ≡ fields → MatchResult result (SetBy self ds) (NotNumbers here.entry.«record» (setter_count self) ds) }
    {
        if fields != self.count() + 1 {
            return Err(here.fault(0));
        }
        match self {
            Setter::Kerbs => Ok(Call::Kerbs(kerbs_of(read_naturals(here)?))),
            Setter::Factors => Ok(Call::Factors(factors_of(read_naturals(here)?))),
            Setter::Reduce => Ok(reduced_by(read_naturals(here)?)),
            Setter::Posted => {
                let [number, serial] = read_naturals::<2>(here)?;
                Ok(Call::Posted { number, serial })
            },
            Setter::Withdraw => {
                let [number, serial] = read_naturals::<2>(here)?;
                Ok(Call::Withdraw { number, serial })
            },
        }
    }
}

// The lengths that begin here, after a rating's kind.
fn read_lengths(here: Cursor<'_>) -> Result<Lengths, TextFault>
    ensures { (ds : List Cell) (ys : List ℕ) → Line ds (text_at here.entry) ys → length ds ≡ 4 → MatchResult result (LentBy ds) (Missed Counts ds here.entry.«record» 3) }
{
    let numbers = read_numbers::<u32, LENGTHS>(here, 3, LENGTHS)?;
    let [areas, tandems, bests, owners] = numbers.into_inner().unwrap();
    Ok(Lengths {
        areas: areas as usize,
        tandems: tandems as usize,
        bests: bests as usize,
        owners: owners as usize,
    })
}

impl Rater {
    fn call(self, kind: LoadKind, lengths: Lengths) -> Call
        ensures { result ≡ rater_call self kind lengths }
    {
        match self {
            Rater::Figure => Call::Figure { kind, lengths },
            Rater::Drawing => Call::Drawing { kind, lengths },
        }
    }

    // The rating whose kind begins here, in a record of so many fields.
    fn read(self, here: Cursor<'_>, fields: usize) -> Result<Call, TextFault>
        ensures { (ds : List Cell) (ys : List ℕ) → (0 < length ds → Line ds (text_at here.entry) ys) → length ds + 1 ≡ fields → MatchResult result (RatesBy self ds) (NotRated here.entry.«record» ds) }
    {
        if fields != 2 && fields != 2 + LENGTHS {
            return Err(here.fault(0));
        }
        let word = read_first(here, 2)?;
        let Some(kind) = kind_of(word.field) else {
            return Err(here.fault(2));
        };
        if fields == 2 {
            return Ok(self.call(kind, AMPLE));
        }
        let lengths = read_lengths(word.rest)?;
        Ok(self.call(kind, lengths))
    }
}

impl Entry for Call {
    ghost said = { Said };

    ghost unsaid = { Unsaid };

    fn read(here: Cursor<'_>, fields: usize) -> Result<Call, TextFault> {
        let word = read_first(here, 1)?;
        match verb_of(word.field) {
            Some(Verb::Sets(setter)) => setter.read(word.rest, fields),
            Some(Verb::Rates(rater)) => rater.read(word.rest, fields),
            None => Err(here.fault(1)),
        }
    }
}
