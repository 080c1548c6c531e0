// What owners show of the other lanes: where each of them begins.
ghost use Rattle.std.specs.Prelude.{◌≡◌, IfOk, MatchBool};
ghost use Rattle.report.specs.Shown.{Begins, OtherStarts, count_of};

use std::alloc::{AllocError, Global};

// The number of an other lane among owners: numbers, as a rule of the project asks of that list.
const OTHER: u8 = 4;

// How many slices have this owner, by its number in that list.
fn owned_slices(owners: &[u8; 300], owner: u8) -> usize
    ensures { result ≡ count_of owners.now 300 owner }
{
    owners.iter().filter(|number| **number == owner).count()
}

// Whether a slice begins an other lane, after so many slices of other lanes: each lane has the width of lane 1.
fn begins(owner: u8, before: usize, width: usize) -> bool
    ensures { MatchBool result (Begins owner before width) (Begins owner before width → ⊥) }
{
    owner == OTHER && width > 0 && before % width == 0
}

// The first slice of each other lane, from the left.
pub fn other_starts(heap: Global, owners: &[u8; 300]) -> Result<Vec<u32>, AllocError>
    ensures { IfOk result (λ v. OtherStarts owners.now v.items) }
{
    let width = owned_slices(owners, 1);
    let mut starts = Vec::new(heap);
    let mut before = 0;
    for (j, number) in owners.iter().enumerate() {
        if begins(*number, before, width) {
            starts.push(j as u32)?;
        }
        if *number == OTHER {
            before += 1;
        }
    }
    Ok(starts)
}
