ghost use Rattle.std.specs.Prelude.{◌≡◌, IfOk, option_map};
ghost use Rattle.luks_meta.specs.Configs.{mandatory};
ghost use Rattle.luks_rules.specs.Foreign.{first_foreign};

use json_members::Text;
use luks_meta::{Config, PROFILE};
use std::alloc::{AllocError, Global};

/// The first of the texts that isn't the profile's.
fn first_other(texts: &[Text]) -> Option<&Text>
    ensures { option_map (λ text. text.now) result ≡ first_foreign texts.now }
{
    texts.iter().find(|text| text.as_str() != PROFILE)
}

/// The first of the texts that isn't the profile's, as a text of its own.
fn copy_first_other(alloc: Global, texts: &[Text]) -> Result<Option<Text>, AllocError>
    ensures { IfOk result (λ found. found ≡ first_foreign texts.now) }
{
    match first_other(texts) {
        Some(text) => Ok(Some(text.copy(alloc)?)),
        None => Ok(None),
    }
}

/// The first mandatory string that isn't the profile's.
pub(crate) fn first_foreign_string(
    alloc: Global,
    config: &Config,
) -> Result<Option<Text>, AllocError>
    ensures { IfOk result (λ found. found ≡ first_foreign (mandatory config.now.requirements)) }
{
    match &config.requirements {
        Some(requirements) => copy_first_other(alloc, requirements.mandatory.as_slice()),
        None => Ok(None),
    }
}
