// The lanes that are still to place: a set of lanes 1 to 3, and how many others.

ghost use Rattle.std.specs.Prelude.{◌≡◌, ◌+◌, ◌-◌, ◌*◌, ◌<◌, ◌≤◌, List, ◌∷◌, MatchOption, count_ones};
ghost use Rattle.placing.specs.Placing.{Holds, lane_set};
ghost use Rattle.placing.specs.Steps.{Taken};
ghost use Rattle.model.specs.declared.owners.Owner.{Owner as AnOwner};

use model::owners::Owner;

// A number with three bits, as a rule of the project asks: its ones are counted, and the entries are numbered by it.
#[derive(Clone, Copy)]
pub struct LaneSet {
    // 1, 2 and 4 for lanes 1, 2 and 3
    pub numbered: u8,
    pub others: u8,
    ghost numbered_low: { numbered < 8 },
    ghost others_low: { others < 3 },
}

// How many of lanes 1 to 3 the set has.
fn ones_of(numbered: u8) -> usize
    requires { numbered < 8 }
    ensures ones { result ≡ count_ones numbered }
    ensures few { result ≤ 3 }
{
    numbered.count_ones() as usize
}

impl LaneSet {
    // Lanes 1 to `count`, each number once.
    pub fn up_to(count: usize) -> LaneSet
        requires { count ≤ 5 }
        ensures numbered { result.numbered ≡ lane_set count }
        ensures others { result.others ≡ count - 3 }
    {
        let numbered = match count {
            0 => 0,
            1 => 1,
            2 => 3,
            _ => 7,
        };
        LaneSet {
            numbered,
            others: count.saturating_sub(3) as u8,
        }
    }

    // How many lanes must still fit: the ones of the set and the others.
    pub fn count(self) -> usize
        ensures count { result ≡ self.others + count_ones self.numbered }
        ensures few { result ≤ 5 }
    {
        self.others as usize + ones_of(self.numbered)
    }

    // The number of the entry for this set from slice `at` on.
    pub fn entry(self, at: usize) -> usize
        requires { at ≤ 512 }
        ensures { result ≡ 24 * at + 3 * self.numbered + self.others }
    {
        24 * at + 3 * self.numbered as usize + self.others as usize
    }

    // What is left after a part of `owner`, or nothing where such a part may not come next.
    pub fn after(self, owner: Owner) -> Option<LaneSet>
        ensures { MatchOption result ((ps : List AnOwner) → Holds self.numbered self.others (owner ∷ ps) → ⊥) (λ t. Taken owner self.numbered self.others t.numbered t.others) }
    {
        match owner {
            Owner::Remaining => Some(self),
            Owner::Lane1 if self.numbered & 1 != 0 => Some(LaneSet {
                numbered: self.numbered - 1,
                others: self.others,
            }),
            Owner::Lane2 if self.numbered & 2 != 0 => Some(LaneSet {
                numbered: self.numbered - 2,
                others: self.others,
            }),
            Owner::Lane3 if self.numbered & 4 != 0 => Some(LaneSet {
                numbered: self.numbered - 4,
                others: self.others,
            }),
            Owner::Other if self.others != 0 => Some(LaneSet {
                numbered: self.numbered,
                others: self.others - 1,
            }),
            _ => None,
        }
    }
}
