//! Faults that are a pattern which was refused although it reads as one.
ghost use Rattle.std.specs.Prelude.{◌≡◌, true, is_some, ◌⊎◌, IfOk};
ghost use Rattle.jam_effects.specs.Causes.{refused_by};
ghost use Rattle.jam_effects.specs.declared.fault.EvalFault.TheVariants as faults;
ghost use Rattle.jam_effects.specs.declared.fault.EvalCause.TheVariants.{Native};
ghost use Rattle.jam_patterns.specs.declared.native_fault.NativeFault.TheVariants.{PatternRefused};
ghost use Rattle.b2_own_text.specs.Faults.{unless_refused};

use b2_base::fault::OutOfMemory;
use b2_base::text::Text;
use jam_effects::fault::{EvalCause, EvalFault};
use jam_patterns::native_fault::NativeFault;
use jam_patterns::refusal::Refusal;

/// Whether a fault is a pattern that was refused although it reads as one; takes no memory.
pub fn is_refused(fault: &EvalFault) -> bool
    ensures { result ≡ is_some (refused_by fault.now) }
{
    match fault {
        EvalFault::At {
            cause: EvalCause::Native(NativeFault::PatternRefused { refusal }),
            ..
        } => !refusal.syntax(),
        _ => false,
    }
}

/// The fault at a line that is this refusal.
fn copy_at(path: &Text, line: u32, refusal: &Refusal) -> Result<EvalFault, OutOfMemory>
    ensures { IfOk result (λ fault. fault ≡ faults.At path.now line (Native (PatternRefused refusal.now))) }
{
    Ok(EvalFault::At {
        path: path.copy()?,
        line,
        cause: EvalCause::Native(NativeFault::PatternRefused {
            refusal: refusal.copy()?,
        }),
    })
}

/// The same fault, or out of memory.
pub(crate) fn copy_refused(fault: &EvalFault) -> EvalFault
    requires { is_some (refused_by fault.now) ≡ true }
    ensures { (result ≡ faults.OutOfMemory) ⊎ (result ≡ fault.now) }
{
    match fault {
        EvalFault::At {
            path,
            line,
            cause: EvalCause::Native(NativeFault::PatternRefused { refusal }),
        } => match copy_at(path, *line, refusal) {
            Ok(copy) => copy,
            Err(_) => EvalFault::OutOfMemory,
        },
        _ => EvalFault::OutOfMemory,
    }
}

/// The fault, or out of memory in place of a pattern that was refused although it reads as one.
pub(crate) fn unless_refused(fault: EvalFault) -> EvalFault
    ensures { result ≡ unless_refused fault }
{
    if is_refused(&fault) {
        drop(fault);
        return EvalFault::OutOfMemory;
    }
    fault
}
