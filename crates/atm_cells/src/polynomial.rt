//! Division of polynomials whose coefficients add modulo 2.

ghost use Rattle.std.specs.Prelude.{◌≡◌, ◌≤◌, Bool, List, length};
ghost use Rattle.atm_cells.specs.Polynomial.{IsRemainder, remainder};

/// Law: a polynomial has one remainder by x^k + g, the one that long division leaves.
pub fn remainder_law()
    ensures some { (g p : List Bool) → length g ≤ length p → IsRemainder g p (remainder g p) }
    ensures one { (g p r : List Bool) → IsRemainder g p r → r ≡ remainder g p }
{}
