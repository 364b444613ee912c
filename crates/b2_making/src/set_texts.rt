//! The texts of the set of a main target.
ghost use Rattle.std.specs.Prelude.{◌≡◌, IfOk};
ghost use Rattle.b2_props.specs.Sets.{IsSet};
ghost use Rattle.b2_making.specs.MakingParts.{texts_of};

use crate::setting::Setting;
use crate::site::Site;
use b2_base::fault::OutOfMemory;
use b2_base::text::Text;
use b2_base::text_list::TextList;
use b2_props::elements::dir_of;
use b2_props::property_texts::property_texts;

/// What all steps of a main target read of its set: the part of their paths that tells it, and its properties as their rules
/// get them. Both are made once for all steps.
#[derive(Drop)]
pub(crate) struct SetTexts {
    pub dir: Text,
    pub props: TextList,
}

/// The texts of the set of a main target.
pub(crate) fn set_texts(setting: &Setting<'_>, site: &Site<'_>) -> Result<SetTexts, OutOfMemory>
    requires { IsSet setting.now.registry.now site.now.set.now }
    ensures { IfOk result (λ made. made ≡ texts_of setting.now.registry.now site.now.set.now) }
{
    let dir = dir_of(setting.alloc, setting.registry, site.set)?;
    let props = property_texts(setting.alloc, site.set.pairs())?;
    Ok(SetTexts { dir, props })
}
