// The loads of each owner by EN 1991-2, Table 4.2, with the national factors, in the fine unit of effect.

ghost use Rattle.std.specs.Prelude.{◌≡◌, Some};
ghost use Rattle.model.specs.Weights.{kind_word, tandem_load, uniform_load, tandem_factor, uniform_factor, tandem_weight, uniform_weight};

use crate::owners::Owner;
use std::fmt;

#[derive(Clone, Copy, PartialEq, Eq, Debug)]
pub enum LoadKind {
    Characteristic,
    Frequent,
}

// The factors on tandem and uniform loads, in hundredths; `others` is for lanes from 4 up.
#[derive(Clone, Copy, PartialEq, Eq, Debug)]
pub struct Factors {
    pub tandem1: u32,
    pub tandem2: u32,
    pub tandem3: u32,
    pub uniform1: u32,
    pub uniform2: u32,
    pub uniform3: u32,
    pub others: u32,
    pub remaining: u32,
}

impl fmt::Display for LoadKind {
    ghost output = { λ kind. Some (kind_word kind) };

    fn fmt<W: fmt::Write>(&self, f: &mut fmt::Formatter<W>) -> fmt::Result {
        f.write_str(self.name())
    }
}

impl LoadKind {
    // The word that it is printed as.
    pub fn name(self) -> &'static str
        ensures { result.now ≡ kind_word self }
    {
        match self {
            LoadKind::Characteristic => "characteristic",
            LoadKind::Frequent => "frequent",
        }
    }

    // C of an owner: what an axle counts for a unit ordinate under each wheel, before its factor.
    pub fn tandem_load(self, owner: Owner) -> u32
        ensures { result ≡ tandem_load self owner }
    {
        match self {
            LoadKind::Characteristic => match owner {
                Owner::Lane1 => 3000,
                Owner::Lane2 => 2000,
                Owner::Lane3 => 1000,
                Owner::Remaining | Owner::Other => 0,
            },
            LoadKind::Frequent => match owner {
                Owner::Lane1 => 2250,
                Owner::Lane2 => 1500,
                Owner::Lane3 => 750,
                Owner::Remaining | Owner::Other => 0,
            },
        }
    }

    // D of an owner: what twice the loaded area counts for, before its factor.
    pub fn uniform_load(self, owner: Owner) -> u32
        ensures { result ≡ uniform_load self owner }
    {
        match self {
            LoadKind::Characteristic => match owner {
                Owner::Lane1 => 90,
                _ => 25,
            },
            LoadKind::Frequent => match owner {
                Owner::Lane1 => 36,
                _ => 10,
            },
        }
    }
}

impl Factors {
    // Every factor 1.00.
    pub const ONES: Factors = Factors {
        tandem1: 100,
        tandem2: 100,
        tandem3: 100,
        uniform1: 100,
        uniform2: 100,
        uniform3: 100,
        others: 100,
        remaining: 100,
    };

    // The factor on an owner's tandem; no owner but lanes 1 to 3 has one.
    pub fn tandem_factor(self, owner: Owner) -> u32
        ensures { result ≡ tandem_factor self owner }
    {
        match owner {
            Owner::Lane1 => self.tandem1,
            Owner::Lane2 => self.tandem2,
            Owner::Lane3 => self.tandem3,
            Owner::Remaining | Owner::Other => 0,
        }
    }

    // The factor on an owner's uniform load.
    pub fn uniform_factor(self, owner: Owner) -> u32
        ensures { result ≡ uniform_factor self owner }
    {
        match owner {
            Owner::Remaining => self.remaining,
            Owner::Lane1 => self.uniform1,
            Owner::Lane2 => self.uniform2,
            Owner::Lane3 => self.uniform3,
            Owner::Other => self.others,
        }
    }

    // What T of an owner's lane counts for. No one function with the next: it would take two tables as closures to write one product.
    pub fn tandem_weight(self, kind: LoadKind, owner: Owner) -> u64
        ensures { result ≡ tandem_weight kind self owner }
    {
        kind.tandem_load(owner) as u64 * self.tandem_factor(owner) as u64
    }

    // What A of an owner's slice counts for.
    pub fn uniform_weight(self, kind: LoadKind, owner: Owner) -> u64
        ensures { result ≡ uniform_weight kind self owner }
    {
        kind.uniform_load(owner) as u64 * self.uniform_factor(owner) as u64
    }
}
