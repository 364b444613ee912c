//! Why a feature is not declared, or a value not composed.
use b2_base::fault::OutOfMemory;
use b2_base::text::Text;

/// Why a feature is not declared, or a value not composed. Of several causes the first in this order is answered, and of
/// several words with this cause the first in the order of the call.
#[derive(Drop)]
pub enum FeatureFault {
    /// The feature, or an implicit value, is there, also where it stands twice in one declaration.
    Twice { word: Text },
    /// A feature that is not there, or a value that its feature does not have.
    Unknown { word: Text },
    /// A word that may not stand where it does.
    BadValue { word: Text },
    /// A value that is composed already, or one of two values of one feature.
    ComposeConflict { word: Text },
    OutOfMemory,
}

impl From<OutOfMemory> for FeatureFault {
    ghost use Rattle.std.specs.Prelude.{◌≡◌};
    ghost use Rattle.b2_features.specs.declared.fault.FeatureFault.TheVariants as faults;

    ghost from_gives = { λ _ fault. fault ≡ faults.OutOfMemory };

    fn from(_error: OutOfMemory) -> FeatureFault {
        FeatureFault::OutOfMemory
    }
}
