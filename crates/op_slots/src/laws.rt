//! Laws of the definitions. Each function does nothing, and its contract is the law.
ghost use Rattle.op_slots.specs.Rows.{Unions, Refusals, Mappings};

/// What arguments stand for over a small complex.
pub fn rows()
    ensures unions { Unions }
    ensures refusals { Refusals }
    ensures mappings { Mappings }
{}
