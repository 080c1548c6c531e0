// How a script turns its surface.
ghost use Rattle.std.specs.Prelude.{◌≡◌, ℕ, ◌<◌, ◌≤◌, List, length, MatchResult};
ghost use Rattle.table.specs.Cells.{Cell, cell_of, content};
ghost use Rattle.table.specs.Lines.{Line, text_at};
ghost use Rattle.script.specs.Turns.{follows, turned_on, NextTurn, TurnedBy, Misturned};

use crate::first::read_first;
use crate::words::{Turn, turn_of};
use table::cursor::Cursor;
use table::fault::TextFault;
use table::field::Field;

// Which of the three turns are made: three facts and no kind, since any of them may be made together.
#[derive(Clone, Copy, Default, PartialEq, Eq, Debug)]
pub struct Turns {
    pub sides: bool,
    pub ends: bool,
    pub opposite: bool,
}

// By match on a turn, since each is a field of its own.
impl Turns {
    // Whether the turn may be named after these: each at most once, and in the order sides, ends, opposite.
    fn allows(self, turn: Turn) -> bool
        ensures { result ≡ follows self turn }
    {
        match turn {
            Turn::Sides => !self.sides & !self.ends & !self.opposite,
            Turn::Ends => !self.ends & !self.opposite,
            Turn::Opposite => !self.opposite,
        }
    }

    fn with(self, turn: Turn) -> Turns
        ensures { result ≡ turned_on self turn }
    {
        match turn {
            Turn::Sides => Turns {
                sides: true,
                ..self
            },
            Turn::Ends => Turns { ends: true, ..self },
            Turn::Opposite => Turns {
                opposite: true,
                ..self
            },
        }
    }

    // These turns and the one that the field names, if it may be named after them.
    fn and(self, field: Field<'_>) -> Option<Turns>
        ensures { NextTurn (content (cell_of field.entry.text)) self result }
    {
        let turn = turn_of(field)?;
        self.allows(turn).then_some(self.with(turn))
    }
}

// The turns that so many words from here on name, which stand after the word `turned`.
// By number, since a word begins where the one before was seen to end.
pub(crate) fn read_turns(here: Cursor<'_>, count: usize) -> Result<Turns, TextFault>
    requires { count ≤ 100000 }
    ensures { (ds : List Cell) (ys : List ℕ) → (0 < length ds → Line ds (text_at here.entry) ys) → length ds ≡ count → MatchResult result (λ t. TurnedBy ds t) (λ e. Misturned here.entry.«record» ds e) }
{
    let mut turns = Turns::default();
    let mut rest = here;
    for i in 0..count {
        let field = 2 + i as u32;
        let word = read_first(rest, field)?;
        let Some(more) = turns.and(word.field) else {
            return Err(here.fault(field));
        };
        turns = more;
        rest = word.rest;
    }
    Ok(turns)
}
