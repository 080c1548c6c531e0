// Runs the stored tables through the text of their figures, one after the other.
#![tactic(auto)]

use rated::text::sheet_text;
use std::fs;

// How many tables are stored, numbered from 1.
const TABLES: u32 = 120;

// Prints the answer to one stored table under its number.
// As in `trials`: what both could share would be a public function that promises nothing.
fn try_table(rt: &HostRuntime, number: u32) -> anyhow::Result<()> {
    let path = format!(in rt.alloc(); "sheet/{number:04}.csv")?;
    let input = fs::read(rt, path.as_str())?;
    let text = sheet_text(rt.alloc(), input.as_slice())?;
    println!(rt; "table {number:04}")?;
    rt.print(text)?;
    Ok(())
}

fn main(rt: HostRuntime) -> anyhow::Result<()> {
    for number in 1..=TABLES {
        try_table(&rt, number)?;
    }
    Ok(())
}
