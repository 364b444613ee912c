//! What the declaring calls of a load make of it.
ghost use Rattle.std.specs.Prelude.{◌≡◌, ◌<◌, false, Ok, All, length, map, IfOk, IfErr};
ghost use Rattle.b2_declared.specs.Outcomes.{IsFaultOf};
ghost use Rattle.b2_declared.specs.Declaring.{declared};
ghost use Rattle.b2_declared.specs.Laws.{visited, named, mains, names, feature_names, IsSound};

use crate::fault::DeclaringFault;
use crate::gathered::gathered_by;
use crate::tables::tables_of;
use crate::visit::{Call, Visit};
use crate::whole::Declared;
use b2_base::list::List;
use std::alloc::Global;

/// What the declaring calls of a load make of it. First the calls are carried out in order of recording. Each has the
/// shape of its rule, and neither its output roots nor the name of its main target or its test is refused. A second
/// `project` call of one project is refused, a second `using gcc` does nothing. The property texts of `feature.compose`
/// and `generators.register-standard` are read in the tables so far.
///
/// Then the other property texts are read in order of recording, in the table of all features and the directory of the
/// project: of each call its property lists in their order. Requirements that give a feature that is not free two values
/// without conditions are refused once the last list of them in the call was read. The ids, the directories of
/// `build-project` and the names of `explicit` are those of the calls in order.
///
/// The fault is that of the first call that is refused.
pub fn declared(alloc: Global, visits: &[Visit], calls: &[Call]) -> Result<Declared, DeclaringFault>
    requires { All (λ call. call.project < length visits.now) calls.now }
    ensures ok { IfOk result (λ made. declared visits.now calls.now ≡ Ok made) }
    ensures fault { IfErr result (IsFaultOf (declared visits.now calls.now)) }
    ensures places { IfOk result (λ made. map visited made.places ≡ visits.now) }
    ensures targets { IfOk result (λ made. named made.targets ≡ mains calls.now) }
    ensures features { IfOk result (λ made. names made.registry ≡ feature_names false calls.now) }
    ensures sound { IfOk result (λ made. IsSound (length visits.now) made.places made.targets made.tests made.indirect) }
{
    let tables = tables_of(alloc, visits, calls)?;
    let gathered = gathered_by(alloc, &tables.registry, visits, calls)?;
    Ok(Declared {
        places: List::from_vec(gathered.places),
        targets: gathered.targets,
        tests: gathered.tests,
        ids: gathered.ids,
        registry: tables.registry,
        types: tables.types,
        indirect: gathered.indirect,
    })
}
