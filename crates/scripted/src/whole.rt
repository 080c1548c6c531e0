// A script is read, and the job that it describes is run.
ghost use Rattle.std.specs.Prelude.{◌≡◌, ◌≤◌, length, string_bytes};
ghost use Rattle.measured.specs.Judged.{seal_judged};
ghost use Rattle.measured.specs.Rows.{rows_shape};
ghost use Rattle.edge.specs.Judged.{edge_judged};
ghost use Rattle.script.specs.Parts.{BeginsEdge};
ghost use Rattle.script.specs.Turns.{turned_shape};
ghost use Rattle.scripted.specs.Left.{text_left, duty_left_by};
ghost use Rattle.scripted.specs.Scripts.{JudgedRan, LinedRan, ScriptRan, Unread};

use crate::ran::Ran;
use crate::turning::run_turned;
use edge::edge::Edge;
use measured::measured::{Draft, Measured};
use measured::row::Row;
use script::fault::ScriptFault;
use script::lined::Lined;
use script::part::says_edge;
use script::tail::Tail;
use script::whole::{Script, read_edge, read_measured};
use std::alloc::{AllocError, Global};
use table::fault::Report;
use table::input::Input;

// Nothing is run: the refusal is told.
fn unread(heap: Global, fault: ScriptFault) -> Ran
    ensures { Unread fault (text_left result) (duty_left_by result) }
{
    let text = match fault {
        ScriptFault::Told(f) => Report::from(f).line(heap),
        ScriptFault::Memory => Err(AllocError),
    };
    Ran { text, duty: None }
}

// Seals the draft over its rows, and runs the script over its surface.
fn run_sealed(heap: Global, script: Script<Draft>, rows: &[Row]) -> Ran
    ensures { JudgedRan (seal_judged script.surface.layout.count rows.now script.surface.filled) (turned_shape script.tail.turns (rows_shape script.surface.layout.slices script.surface.layout.count script.surface.layout.paths script.surface.filled rows.now)) script.tail.opening.number script.tail.opening.kerbs script.tail.calls.items (text_left result) (duty_left_by result) }
{
    let Script {
        surface: draft,
        tail,
    } = script;
    let mut surface = Measured::level();
    match draft.seal(rows, &mut surface) {
        Ok(()) => run_turned(heap, surface, &tail),
        Err(back) => {
            drop(surface);
            unread(heap, ScriptFault::Told(back.1))
        }
    }
}

// Makes the edge surface, and runs the script over it.
fn run_lined(heap: Global, lined: &Lined, tail: &Tail) -> Ran
    ensures { LinedRan lined.now.edges.slices lined.now.edges.left lined.now.edges.right lined.now.line.items tail.now.turns tail.now.opening.number tail.now.opening.kerbs tail.now.calls.items (text_left result) (duty_left_by result) }
{
    let edges = lined.edges;
    let mut surface = Edge::level();
    match surface.make(edges.slices, edges.left, edges.right, lined.line.as_slice()) {
        Ok(()) => run_turned(heap, surface, tail),
        Err(fault) => {
            drop(surface);
            unread(heap, ScriptFault::Told(fault))
        }
    }
}

// Reads and runs a script whose surface is a run's table.
fn run_measured(heap: Global, script: Input<'_>) -> Ran
    requires { BeginsEdge script.bytes.now → ⊥ }
    ensures { ScriptRan script.entry.bytes.now (text_left result) (duty_left_by result) }
{
    let mut rows = [Row::BLANK; 64];
    match read_measured(heap, script, &mut rows) {
        Ok(script) => run_sealed(heap, script, &rows),
        Err(fault) => unread(heap, fault),
    }
}

// Reads and runs a script whose surface is an edge surface.
fn run_edge(heap: Global, script: Input<'_>) -> Ran
    requires { BeginsEdge script.bytes.now }
    ensures { ScriptRan script.entry.bytes.now (text_left result) (duty_left_by result) }
{
    match read_edge(heap, script) {
        Ok(script) => run_lined(heap, &script.surface, &script.tail),
        Err(fault) => unread(heap, fault),
    }
}

// Reads the script whole, and then opens its job and makes its calls: what is printed, and the duty that is left open.
pub fn run_script(heap: Global, input: &[u8]) -> Ran
    ensures { ScriptRan input.now (text_left result) (duty_left_by result) }
{
    match Input::of(input) {
        Ok(script) => if says_edge(script) {
            run_edge(heap, script)
        } else {
            run_measured(heap, script)
        },
        Err(fault) => unread(heap, fault.into()),
    }
}
