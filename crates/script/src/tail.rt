// What follows the surface in a script: perhaps how it is turned, then the opening and the calls.
ghost use Rattle.std.specs.Prelude.{◌≡◌, ◌+◌, ◌≤◌, MatchResult};
ghost use Rattle.table.specs.Lines.{text_at};
ghost use Rattle.script.specs.Faults.{IfTold};
ghost use Rattle.script.specs.Tails.{TurnedFirst, TurnedStops, OpenedNext, OpenStops, TailSaid, TailRefused};

use crate::entries::read_entries;
use crate::fault::ScriptFault;
use crate::first::read_first;
use crate::opening::{Opening, read_open};
use crate::place::Place;
use crate::turns::{Turns, read_turns};
use card::calls::Call;
use std::alloc::Global;
use table::fault::TextFault;

// The turns, and where the next record begins.
#[derive(Clone, Copy)]
struct Turned<'a> {
    turns: Turns,
    next: Place<'a>,
}

// An opening, and where the next record begins.
#[derive(Clone, Copy)]
struct Opened<'a> {
    opening: Opening,
    next: Place<'a>,
}

#[derive(Drop)]
pub struct Tail {
    pub turns: Turns,
    pub opening: Opening,
    pub calls: Vec<Call>,
}

// The turns that the record here says, or none where it says no turns.
fn read_turned(here: Place<'_>) -> Result<Turned<'_>, TextFault>
    requires { here.cursor.«record» ≤ 70000 }
    ensures { MatchResult result (λ t. TurnedFirst (text_at here.entry.cursor) here.entry.cursor.«record» t.turns (text_at t.next.cursor) t.next.cursor.«record» × (t.next.cursor.«record» ≤ here.entry.cursor.«record» + 1)) (TurnedStops here.entry.cursor.«record» (text_at here.entry.cursor)) }
{
    let unturned = Turned {
        turns: Turns::default(),
        next: here,
    };
    if here.is_at_end() {
        return Ok(unturned);
    }
    let line = here.line()?;
    let word = read_first(here.cursor, 1)?;
    if !word.field.is_word(b"turned") {
        return Ok(unturned);
    }
    let turns = read_turns(word.rest, line.fields - 1)?;
    Ok(Turned {
        turns,
        next: here.after(line),
    })
}

// The opening that has to stand here.
fn read_opened(here: Place<'_>) -> Result<Opened<'_>, TextFault>
    requires { here.cursor.«record» ≤ 80000 }
    ensures { MatchResult result (λ o. OpenedNext (text_at here.entry.cursor) o.opening.number o.opening.kerbs (text_at o.next.cursor) × (o.next.cursor.«record» ≡ here.entry.cursor.«record» + 1)) (OpenStops here.entry.cursor.«record» (text_at here.entry.cursor)) }
{
    if here.is_at_end() {
        return Err(here.cursor.fault(0));
    }
    let line = here.line()?;
    let opening = read_open(here.cursor, line.fields)?;
    Ok(Opened {
        opening,
        next: here.after(line),
    })
}

// Reads the script from here on.
pub(crate) fn read_tail(heap: Global, here: Place<'_>) -> Result<Tail, ScriptFault>
    requires { here.cursor.«record» ≤ 70000 }
    ensures { MatchResult result (λ t. TailSaid (text_at here.entry.cursor) here.entry.cursor.«record» t.turns t.opening.number t.opening.kerbs t.calls.items) (IfTold (TailRefused here.entry.cursor.«record» (text_at here.entry.cursor))) }
{
    let turned = read_turned(here)?;
    let opened = read_opened(turned.next)?;
    let calls = read_entries(heap, opened.next)?;
    Ok(Tail {
        turns: turned.turns,
        opening: opened.opening,
        calls,
    })
}
