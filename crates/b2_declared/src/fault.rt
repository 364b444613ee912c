//! Why the declaring calls of a load are refused.
ghost use Rattle.std.specs.Prelude.{◌≡◌, IfOk};
ghost use Rattle.b2_declared.specs.DeclaringCalls.{refusal, IsRefusal, IsFeatureRefusal};

use crate::visit::{Call, Visit};
use b2_base::fault::OutOfMemory;
use b2_base::path::Path;
use b2_base::text::Text;
use b2_features::fault::FeatureFault;

/// Why the declaring calls of a load are refused: the first call that is, with the file of its project and its line.
#[derive(Drop)]
pub enum DeclaringFault {
    /// The call is refused as a whole: its lists have another shape, or what it declares is there already or may not be.
    Declaration {
        path: Path,
        rule: Text,
        line: u32,
    },
    /// A feature, a value or a property text of the call is refused.
    Feature {
        path: Path,
        line: u32,
        fault: FeatureFault,
    },
    OutOfMemory,
}

impl From<OutOfMemory> for DeclaringFault {
    ghost use Rattle.std.specs.Prelude.{◌≡◌};
    ghost use Rattle.b2_declared.specs.declared.fault.DeclaringFault.TheVariants as faults;

    ghost from_gives = { λ _ fault. fault ≡ faults.OutOfMemory };

    fn from(_error: OutOfMemory) -> DeclaringFault {
        DeclaringFault::OutOfMemory
    }
}

fn refused(visit: &Visit, call: &Call) -> Result<DeclaringFault, OutOfMemory>
    ensures { IfOk result (λ fault. fault ≡ refusal visit.now call.now) }
{
    let path = visit.file.copy()?;
    Ok(DeclaringFault::Declaration {
        path,
        rule: call.rule.copy()?,
        line: call.line,
    })
}

/// The refusal of a call as a whole, or out of memory where none was left to say so.
pub(crate) fn refusal(visit: &Visit, call: &Call) -> DeclaringFault
    ensures { IsRefusal (refusal visit.now call.now) result }
{
    match refused(visit, call) {
        Ok(fault) => fault,
        Err(OutOfMemory) => DeclaringFault::OutOfMemory,
    }
}

/// A fault of a feature at a call. Out of memory stays what it is.
pub(crate) fn feature_refusal(visit: &Visit, call: &Call, fault: FeatureFault) -> DeclaringFault
    ensures { IsFeatureRefusal visit.now call.now fault result }
{
    if let FeatureFault::OutOfMemory = fault {
        return DeclaringFault::OutOfMemory;
    }
    match visit.file.copy() {
        Ok(path) => DeclaringFault::Feature {
            path,
            line: call.line,
            fault,
        },
        Err(OutOfMemory) => DeclaringFault::OutOfMemory,
    }
}
