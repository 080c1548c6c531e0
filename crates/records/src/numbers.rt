// The numbers of a record's fields, of any kind that a field may write.
ghost use Rattle.std.specs.Prelude.{◌≡◌, ℕ, ◌≤◌, List, [], ◌∷◌, ◌++◌, length, min, take, slice_set, IfOk, MatchResult};
ghost use Rattle.table.specs.Cells.{Cell};
ghost use Rattle.table.specs.Lines.{Line, text_at};
ghost use Rattle.records.specs.Numbers.{Taken, FilledBy, Missed};

use arrayvec::ArrayVec;
use table::cursor::Cursor;
use table::fault::TextFault;
use table::number::Number;

// Reads the `count` fields from here on, the first of which has the place `first`, and holds as many of their numbers as there is room for.
// By number, since a field begins where the one before was seen to end.
pub fn read_numbers<N: Number + Default, const ROOM: usize>(
    here: Cursor<'_>,
    first: u32,
    count: usize,
) -> Result<ArrayVec<N, ROOM>, TextFault>
    requires { (count ≤ 100000) × (first ≤ 3) }
    ensures numbers { (cs : List Cell) (ys : List ℕ) → Line cs (text_at here.entry) ys → length cs ≡ count → MatchResult result (λ v. Taken N.Number.writes ROOM cs v.items) (λ e. Missed N.Number.writes cs here.entry.«record» first e) }
    ensures held { IfOk result (λ v. length v.items ≡ min count ROOM) }
{
    let mut numbers = ArrayVec::new();
    let mut at = here.at;
    for i in 0..count {
        let read = here.moved_to(at).field(first + i as u32)?;
        let value = read.field.value()?;
        hold_next(&mut numbers, value);
        at = read.next.saturating_add(1);
    }
    Ok(numbers)
}

// Reads the same fields, and puts their numbers into the places that are lent, as many as there are.
// No one loop with `read_numbers`, since a list that is handed out begins as defaults, and a kind of number need have none.
pub fn fill_numbers<N: Number>(
    here: Cursor<'_>,
    first: u32,
    count: usize,
    into: &mut [N],
) -> Result<(), TextFault>
    requires { (count ≤ 100000) × (first ≤ 3) }
    ensures numbers { (cs : List Cell) (ys : List ℕ) → Line cs (text_at here.entry) ys → length cs ≡ count → MatchResult result (λ _. FilledBy N.Number.writes cs into.old into.new) (λ e. Missed N.Number.writes cs here.entry.«record» first e) }
    ensures kept { length into.new ≡ length into.old }
{
    let mut at = here.at;
    for i in 0..count {
        let read = here.moved_to(at).field(first + i as u32)?;
        let value = read.field.value()?;
        hold(into, i, value);
        at = read.next.saturating_add(1);
    }
    Ok(())
}

// Appends a number, if there is room for it.
fn hold_next<N: Number + Default, const ROOM: usize>(numbers: &mut ArrayVec<N, ROOM>, value: N)
    ensures { numbers.new.items ≡ take ROOM (numbers.old.items ++ value ∷ []) }
{
    if !numbers.is_full() {
        numbers.push(value);
    }
}

// Puts a number into place i, if there is such a place.
fn hold<N: Number>(into: &mut [N], i: usize, value: N)
    ensures { into.new ≡ slice_set into.old i value }
{
    if i < into.len() {
        into[i] = value;
    }
}
