// A script read whole.
ghost use Rattle.std.specs.Prelude.{◌≡◌, MatchResult};
ghost use Rattle.script.specs.Faults.{IfTold};
ghost use Rattle.script.specs.Scripts.{MeasuredSays, MeasuredRefused, LinedSays, LinedRefused};

use crate::fault::ScriptFault;
use crate::lined::{Lined, read_lined};
use crate::part::surface_end;
use crate::tail::{Tail, read_tail};
use measured::measured::Draft;
use measured::row::Row;
use readings::run::read_run;
use std::alloc::Global;
use table::input::Input;

// A script over what was read of its surface: a run's draft, or an edge surface's line.
#[derive(Drop)]
pub struct Script<S> {
    pub surface: S,
    pub tail: Tail,
}

// Reads a script whose surface is a run's table; where it is refused, the 64 rows lent stand as before.
pub fn read_measured(
    heap: Global,
    script: Input<'_>,
    rows: &mut [Row; 64],
) -> Result<Script<Draft>, ScriptFault>
    ensures { MatchResult result (λ s. MeasuredSays script.entry.bytes.now rows.old rows.new s.surface.layout.slices s.surface.layout.count s.surface.layout.paths s.surface.filled s.tail.turns s.tail.opening.number s.tail.opening.kerbs s.tail.calls.items) (λ e. IfTold (MeasuredRefused script.entry.bytes.now rows.old) e × (rows.new ≡ rows.old)) }
{
    let end = surface_end(script);
    let mut filled = *rows;
    let surface = read_run(end.preceding().bytes, &mut filled)?;
    let tail = read_tail(heap, end)?;
    *rows = filled;
    Ok(Script { surface, tail })
}

// Reads a script whose surface is an edge surface.
pub fn read_edge(heap: Global, script: Input<'_>) -> Result<Script<Lined>, ScriptFault>
    ensures { MatchResult result (λ s. LinedSays script.entry.bytes.now s.surface.edges.slices s.surface.edges.left s.surface.edges.right s.surface.line.items s.tail.turns s.tail.opening.number s.tail.opening.kerbs s.tail.calls.items) (IfTold (LinedRefused script.entry.bytes.now)) }
{
    let end = surface_end(script);
    let surface = read_lined(heap, end.preceding())?;
    let tail = read_tail(heap, end)?;
    Ok(Script { surface, tail })
}
