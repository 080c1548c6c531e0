// The words of a script, and what they name.
ghost use Rattle.std.specs.Prelude.{◌≡◌};
ghost use Rattle.table.specs.Cells.{cell_of, content};
ghost use Rattle.script.specs.Words.{VerbOf, KindOf, TurnOf, setter_count};

use model::weights::LoadKind;
use table::field::Field;

// The calls that take numbers alone.
#[derive(Clone, Copy, PartialEq, Eq, Debug)]
pub enum Setter {
    Kerbs,
    Factors,
    Reduce,
    Posted,
    Withdraw,
}

// The calls that rate.
#[derive(Clone, Copy, PartialEq, Eq, Debug)]
pub enum Rater {
    Figure,
    Drawing,
}

#[derive(Clone, Copy, PartialEq, Eq, Debug)]
pub enum Verb {
    Sets(Setter),
    Rates(Rater),
}

// How a surface may be turned.
#[derive(Clone, Copy, PartialEq, Eq, Debug)]
pub enum Turn {
    Sides,
    Ends,
    Opposite,
}

// The call that the field names, if it names one.
pub fn verb_of(field: Field<'_>) -> Option<Verb>
    ensures { VerbOf (content (cell_of field.entry.text)) result }
{
    match field.word() {
        b"kerbs" => Some(Verb::Sets(Setter::Kerbs)),
        b"factors" => Some(Verb::Sets(Setter::Factors)),
        b"reduce" => Some(Verb::Sets(Setter::Reduce)),
        b"posted" => Some(Verb::Sets(Setter::Posted)),
        b"withdraw" => Some(Verb::Sets(Setter::Withdraw)),
        b"figure" => Some(Verb::Rates(Rater::Figure)),
        b"drawing" => Some(Verb::Rates(Rater::Drawing)),
        _ => None,
    }
}

// The kind of load that the field names, if it names one.
pub fn kind_of(field: Field<'_>) -> Option<LoadKind>
    ensures { KindOf (content (cell_of field.entry.text)) result }
{
    // Asked word by word: the proof of a match on as many bytes as `characteristic` has did not close.
    if field.is_word(b"characteristic") {
        Some(LoadKind::Characteristic)
    } else if field.is_word(b"frequent") {
        Some(LoadKind::Frequent)
    } else {
        None
    }
}

// The turn that the field names, if it names one.
pub fn turn_of(field: Field<'_>) -> Option<Turn>
    ensures { TurnOf (content (cell_of field.entry.text)) result }
{
    match field.word() {
        b"sides" => Some(Turn::Sides),
        b"ends" => Some(Turn::Ends),
        b"opposite" => Some(Turn::Opposite),
        _ => None,
    }
}

impl Setter {
    // How many numbers the call takes.
    pub fn count(self) -> usize
        ensures { result ≡ setter_count self }
    {
        match self {
            Setter::Kerbs => 2,
            Setter::Factors => 8,
            Setter::Reduce => 8,
            Setter::Posted => 2,
            Setter::Withdraw => 2,
        }
    }
}
