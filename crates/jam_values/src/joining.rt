//! Joining lists.
ghost use Rattle.std.specs.Prelude.{◌≡◌, ◌++◌, OnOk, Ok};
ghost use Rattle.jam_expand.specs.Limits.{within, IsLeftBy};

use b2_base::expand_fault::ExpandFault;
use b2_base::text::Text;
use jam_expand::limit::LimitedList;

/// Joins texts to a list that is not too large, unless it is too large with them. After an error the list may have some of
/// them.
pub fn join(gathered: &mut LimitedList, texts: &[Text]) -> Result<(), ExpandFault>
    ensures given { IsLeftBy result gathered.new (within (gathered.old ++ texts.now)) }
    ensures ok { OnOk result (gathered.new ≡ gathered.old ++ texts.now) }
{
    let _small = gathered.as_slice();
    gathered.reserve(texts.len())?;
    for text in texts {
        gathered.push(text.copy()?)?;
    }
    Ok(())
}
