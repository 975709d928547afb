//! Reads the header of a trace from its fields. After a fault, some texts may be moved out of the
//! fields; the caller drops them.
ghost use Rattle.std.specs.Prelude.{◌≡◌, option_map};
ghost use Rattle.cs_trace_lines.specs.Faults.{IsRead};
ghost use Rattle.cs_trace_lines.specs.Lines.{block_size_in, early_profile_in, header_in};
ghost use Rattle.cs_trace_lines.specs.Lines.{header_key_count, is_early, profile_in, profile_named};
ghost use Rattle.cs_trace_lines.specs.Lines.{version_in};
ghost use Rattle.cs_trace_lines.specs.Reading.{field_value, field_values};
ghost use Rattle.cs_trace_lines.specs.Said.{line_value};

use crate::fault::LineFault;
use crate::fields::{Field, Fields};
use crate::line::Line;
use crate::profile::Profile;
use crate::values::{has_only, take_claims, text_of, whole_number_in};
use crate::version::{BlockSize, Version};

/// The profile with this name: `blocks`, `ordered` or `journal`. None for any other name.
fn profile_named(name: &str) -> Option<Profile>
    ensures { result ≡ profile_named name.now }
{
    match name {
        "blocks" => Some(Profile::Blocks),
        "ordered" => Some(Profile::Ordered),
        "journal" => Some(Profile::Journal),
        _ => None,
    }
}

/// The profile that the field `profile` names. An unknown name, a value that isn't a text, or no
/// value is Syntax.
fn profile_in(profile: &Option<Field>) -> Result<Profile, LineFault>
    ensures { IsRead (λ profile. profile) (profile_in (option_map field_value profile.now)) result }
{
    profile_named(text_of(profile)?).ok_or(LineFault::Syntax)
}

/// Whether versions 2 and 3 have the profile: all but `journal`.
fn is_early(profile: Profile) -> bool
    ensures { result ≡ is_early profile }
{
    !matches!(profile, Profile::Journal)
}

/// The profile that the field `profile` names in version 2 or 3. The faults are those of
/// `profile_in`; `journal` is Syntax, too.
fn early_profile_in(profile: &Option<Field>) -> Result<Profile, LineFault>
    ensures { IsRead (λ profile. profile)
        (early_profile_in (option_map field_value profile.now)) result }
{
    let profile = profile_in(profile)?;
    if !is_early(profile) {
        return Err(LineFault::Syntax);
    }
    Ok(profile)
}

/// The block size whose number of bytes is in the field `block`: 512, 1024, 2048 or 4096. Any other
/// number, a value that isn't a number, or no value is Syntax.
fn block_size_in(block: &Option<Field>) -> Result<BlockSize, LineFault>
    ensures { IsRead (λ block. block) (block_size_in (option_map field_value block.now)) result }
{
    BlockSize::of_bytes(whole_number_in(block)?).ok_or(LineFault::Syntax)
}

/// The version that a header declares: 1, 2 with a profile, or 3 or 4 with a profile and a block
/// size. Another number, or a field that is missing or has a wrong value, is Syntax. Fields that
/// the version doesn't have aren't looked at: `header_key_count` and `has_only` refuse them.
fn version_in(fields: &Fields) -> Result<Version, LineFault>
    ensures { IsRead (λ version. version) (version_in (field_values fields.now)) result }
{
    match whole_number_in(&fields.trace)? {
        1 => Ok(Version::First),
        2 => Ok(Version::Second(early_profile_in(&fields.profile)?)),
        3 => Ok(Version::Third(
            early_profile_in(&fields.profile)?,
            block_size_in(&fields.block)?,
        )),
        4 => Ok(Version::Fourth(profile_in(&fields.profile)?, block_size_in(&fields.block)?)),
        _ => Err(LineFault::Syntax),
    }
}

/// How many keys a header of this version has, `note` not counted: `trace`, `owner`, `group` and
/// `mode`; from version 2 on `profile`, and from version 3 on `block`. `version_in` and
/// `take_claims` read them.
fn header_key_count(version: Version) -> usize
    ensures { result ≡ header_key_count version }
{
    match version {
        Version::First => 4,
        Version::Second(_) => 5,
        Version::Third(..) | Version::Fourth(..) => 6,
    }
}

/// The header that these fields make, with its texts moved out of them. A key too many or too few,
/// or a value that its key can't have, is Syntax. Its owner and group aren't checked to be names.
pub(crate) fn header_in(fields: &mut Fields) -> Result<Line, LineFault>
    ensures { IsRead line_value (header_in (field_values fields.old)) result }
{
    let version = version_in(fields)?;
    if !has_only(version, header_key_count(version), fields) {
        return Err(LineFault::Syntax);
    }
    Ok(Line::Header(version, take_claims(fields)?))
}
