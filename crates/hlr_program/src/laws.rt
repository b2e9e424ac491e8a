//! What an operator gets from a run.

ghost use Rattle.hlr_program.specs.Operator.{OperatorGets};

/// Law: in each run that ends with status 0, exactly the serving register, or none, holds each subscriber; what one subscriber does
/// is the same with and without the others, unless an update of this subscriber met a full shard; and no event changes an open
/// dialogue that it does not name.
pub fn operator_gets()
    ensures { OperatorGets }
{}
