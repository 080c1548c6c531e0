// Fractions compared by cross-multiplying, rounding up, and sums of bounded parts: theory alone.
#![tactic(auto)]

ghost use Rattle.algebra.specs.Frac.{Trans, Adds, Scales, Ceil};
ghost use Rattle.algebra.specs.Sums.{TotalBound, TotalNear};

// The order of fractions, its laws with sums and multiples, and what rounding up means.
pub fn fractions_stand()
    ensures trans { Trans }
    ensures adds { Adds }
    ensures scales { Scales }
    ensures ceil { Ceil }
{}

// What bounds each part of a sum bounds the sum.
pub fn sums_stand()
    ensures bound { TotalBound }
    ensures near { TotalNear }
{}
