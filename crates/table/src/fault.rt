// Why text is refused, and what any refusal tells its reader.
ghost use Rattle.std.specs.Prelude.{◌≡◌, IfOk, Some, string_bytes};
ghost use Rattle.table.specs.Told.{layer_word, told_text, refusal_text, text_told};

use std::alloc::{AllocError, Global};
use std::fmt;

// The layer that found a fault.
#[derive(Clone, Copy, PartialEq, Eq, Debug)]
pub enum Layer {
    Text,
    Surface,
    Job,
}

impl fmt::Display for Layer {
    ghost output = { λ layer. Some (layer_word layer) };

    fn fmt<W: fmt::Write>(&self, f: &mut fmt::Formatter<W>) -> fmt::Result {
        match self {
            Layer::Text => write!(f, "text"),
            Layer::Surface => write!(f, "surface"),
            Layer::Job => write!(f, "job"),
        }
    }
}

// What a fault tells its reader: the refusal's number, the layer that found it, and where.
#[derive(Clone, Copy, PartialEq, Eq, Debug)]
pub struct Report {
    pub number: u32,
    pub layer: Layer,
    pub record: u32,
    pub field: u32,
}

impl fmt::Display for Report {
    ghost output = { λ report. Some (told_text report) };

    fn fmt<W: fmt::Write>(&self, f: &mut fmt::Formatter<W>) -> fmt::Result {
        let Report {
            number,
            layer,
            record,
            field,
        } = *self;
        write!(f, "refused,{number},{layer},{record},{field}")
    }
}

impl Report {
    // The line that tells a refusal.
    pub fn line(self, heap: Global) -> Result<String, AllocError>
        ensures { IfOk result (λ s. string_bytes s ≡ refusal_text self) }
    {
        format!(in heap; "{self}\n")
    }
}

// Why text was refused.
#[derive(Clone, Copy, PartialEq, Eq, Debug)]
pub enum TextFault {
    // A record, field or number that the format does not allow.
    Malformed { record: u32, field: u32 },
    // More bytes than a table may have.
    TooLong,
}

impl From<TextFault> for Report {
    ghost from_gives = { λ fault report. report ≡ text_told fault };

    // The refusal's number, layer and place; input that is too long has no place.
    fn from(fault: TextFault) -> Report {
        let (record, field) = match fault {
            TextFault::Malformed { record, field } => (record, field),
            TextFault::TooLong => (0, 0),
        };
        Report {
            number: 1,
            layer: Layer::Text,
            record,
            field,
        }
    }
}
