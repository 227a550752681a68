// A certificate in its file.
ghost use Rattle.std.specs.Prelude.{◌≡◌, Some, OnOk, OnErr, IsErrOf};
ghost use Rattle.refutation_checker.specs.Certificate.{certificate_text};
ghost use Rattle.tool_outside.specs.declared.files.FileFail.TheVariants.{Failed as file_failed, TooLong as file_too_long};
ghost use Rattle.tool_outside.specs.Causes.{IsCut};
ghost use Rattle.tool_outside.specs.Outside.{Changes, HasCause};

use refutation_checker::{Section, certificate_head, print_section};
use std::alloc::Global;
use tool_outside::{FileFail, Files};

/// Writes the certificate of these sections: one create, then one append for the first line and one for each section.
/// After a refusal the file is as before, or holds a prefix of the certificate.
pub(crate) fn save<F: Files>(
    alloc: Global,
    files: &mut F,
    name: &str,
    sections: &[Section],
) -> Result<(), FileFail>
    ensures saved { OnOk result (Changes (F.held files.old) (F.held files.new) name.now
        (λ before now. now ≡ Some (certificate_text sections.now))) }
    ensures refused { OnErr result (Changes (F.held files.old) (F.held files.new) name.now
        (IsCut (certificate_text sections.now))) }
    ensures not_too_long { IsErrOf result file_too_long → ⊥ }
    ensures cause { HasCause file_failed (F.faults files.old) (F.faults files.new) result }
{
    files.create(alloc, name)?;
    files.append(alloc, name, certificate_head())?;
    for section in sections {
        let text = print_section(alloc, section)?;
        files.append(alloc, name, &text)?;
    }
    Ok(())
}
