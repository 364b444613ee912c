//! Laws of what children in memory make.
ghost use Rattle.b2_memory.specs.ResultLaws.{OrderIsFree};

/// Two neighbouring inputs with different paths may change places: what a child in memory makes stays the same.
pub fn order_is_free()
    ensures { OrderIsFree }
{}
