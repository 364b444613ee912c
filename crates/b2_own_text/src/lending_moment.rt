//! What a host was when it was lent.
ghost use Rattle.b2_host.specs.Outside.{Outside};

use std::marker::Brand;

/// What a host was when it was lent. A caller that passes `Brand` picks it in its proof, as what the host is at that call; so what
/// is given back is known to be the same host, of which no count fell.
pub trait LendingMoment {
    ghost outside: { Outside };
}

impl LendingMoment for Brand {
    ghost use Rattle.std.specs.Prelude.{None, [], false};

    ghost outside = { record { disk = None; reads = None; children = record { running = []; events = []; given = None }; faults = 0; failed_waits = 0; risks = record { may_fail = false; wait_may_fail = false; may_end_badly = false } } };
}
