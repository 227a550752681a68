// Which modules a module mentions.
ghost use Rattle.std.specs.Prelude.{◌≡◌, ◌∷◌, ◌++◌, [], filter, IfOk, OnOk};
ghost use Rattle.tla_meaning.specs.Flattening.{is_standard, mentioned_by, mentioned_files};
ghost use Rattle.tla_meaning.specs.StandardModules.{standard_module};
ghost use Rattle.flat_modules.specs.inner.Mentions.{is_file};

use crate::standards::standard_module;
use std::alloc::{AllocError, Global};
use tla_meaning::{Module, Unit};
use tla_values::{Text, copy_text};

// The modules that a module mentions and that are read from files, in the order of its text.
pub(crate) fn mentioned_files(alloc: Global, source: &Module) -> Result<Vec<Text>, AllocError>
    ensures { IfOk result (λ v. v.items ≡ mentioned_files source.now) }
{
    let mut names = Vec::new(alloc);
    add_files(alloc, source.extends.as_slice(), &mut names)?;
    add_instances(alloc, source.units.as_slice(), &mut names)?;
    Ok(names)
}

fn add_files(alloc: Global, names: &[Text], out: &mut Vec<Text>) -> Result<(), AllocError>
    ensures { OnOk result (out.new.items ≡ out.old.items ++ filter is_file names.now) }
{
    for name in names {
        add_file(alloc, name, out)?;
    }
    Ok(())
}

fn add_instances(alloc: Global, units: &[Unit], out: &mut Vec<Text>) -> Result<(), AllocError>
    ensures { OnOk result (out.new.items ≡ out.old.items ++ filter is_file (mentioned_by units.now)) }
{
    for unit in units {
        add_instance(alloc, unit, out)?;
    }
    Ok(())
}

fn add_instance(alloc: Global, unit: &Unit, out: &mut Vec<Text>) -> Result<(), AllocError>
    ensures { OnOk result (out.new.items ≡ out.old.items ++ filter is_file (mentioned_by (unit.now ∷ []))) }
{
    match unit {
        Unit::Instance(_, name, _, _, _) => add_file(alloc, name, out),
        Unit::Declare(_) => Ok(()),
        Unit::Assume(_) => Ok(()),
        Unit::Theorem(_) => Ok(()),
        Unit::Define(_, _) => Ok(()),
        Unit::Recursive(_) => Ok(()),
    }
}

fn add_file(alloc: Global, name: &Text, out: &mut Vec<Text>) -> Result<(), AllocError>
    ensures { OnOk result (out.new.items ≡ out.old.items ++ filter is_file (name.now ∷ [])) }
{
    if is_standard(name) {
        return Ok(());
    }
    let name = copy_text(alloc, name)?;
    out.push(name)?;
    Ok(())
}

fn is_standard(name: &Text) -> bool
    ensures { result ≡ is_standard (standard_module name.now) }
{
    match standard_module(name.bytes()) {
        None => false,
        Some(_) => true,
    }
}
