// Reads a run's table from standard input, and prints what surface it gave, or why it is refused.
#![tactic(auto)]

use std::io::Read;
use survey::text::sheet_text;
use table::line::LONGEST;

// One byte more than a table may have is read, so that longer input is seen to be too long.
fn main(rt: HostRuntime) -> anyhow::Result<()> {
    let mut input = Vec::new(rt.alloc());
    rt.stdin().take(LONGEST as u64 + 1).read_to_end(&mut input)?;
    let text = sheet_text(rt.alloc(), input.as_slice())?;
    rt.print(text)?;
    Ok(())
}
