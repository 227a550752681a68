// The modules of a root, read one by one.
ghost use Rattle.std.specs.Prelude.{◌≡◌, ◌<◌, [], length, IfOk, MatchResult};
ghost use Rattle.tla_modules.specs.Refusals.{IsCounted};
ghost use Rattle.tla_modules.specs.Sources.{AreRead, AreWhole, IsGiven};
ghost use Rattle.tla_modules.specs.inner.Reading.{IsStop, IsUnreadHere, ReadsOne};

use crate::fault::{ModuleFault, Stop};
use crate::files::{file_of, read_file};
use crate::spelling::spelled;
use flat_modules::{Course, course_from};
use std::alloc::{AllocError, Global};
use tla_meaning::Module;
use tla_values::{Text, module_name};
use tool_outside::Files;

// Reads the modules of a root, where none is read yet.
pub(crate) fn read_all<F: Files>(
    alloc: Global,
    root: &[u8],
    files: &mut F,
    modules: &mut Vec<(Text, Module)>,
) -> Result<(), Stop>
    requires { modules.old.items ≡ [] }
    ensures keeps { F.held files.new ≡ F.held files.old }
    ensures counted { MatchResult result (λ u. F.faults files.new ≡ F.faults files.old)
        (λ stop. IsCounted (F.faults files.old) (F.faults files.new) stop.fault) }
    ensures read { AreRead (F.held files.old) root.now [] modules.new.items }
    ensures ended { MatchResult result (λ u. AreWhole modules.new.items root.now)
        (IsStop (F.held files.old) root.now modules.new.items) }
{
    loop {
        match course_from(alloc, modules, module_name(root))? {
            Course::Whole(_) => return Ok(()),
            Course::Next(name, _) => read_next(alloc, root, name, modules, files)?,
            Course::Cycle(names) => return Err(Stop::of(ModuleFault::Cycle(names))),
            Course::TooMany => return Err(Stop::of(ModuleFault::TooMany)),
        }
    }
}

// Reads the module of a name behind these.
fn read_next<F: Files>(
    alloc: Global,
    root: &[u8],
    name: Text,
    modules: &mut Vec<(Text, Module)>,
    files: &mut F,
) -> Result<(), Stop>
    requires { length modules.old.items < 65 }
    ensures keeps { F.held files.new ≡ F.held files.old }
    ensures counted { MatchResult result (λ u. F.faults files.new ≡ F.faults files.old)
        (λ stop. IsCounted (F.faults files.old) (F.faults files.new) stop.fault) }
    ensures read { ReadsOne (F.held files.old) root.now modules.old.items modules.new.items name result }
{
    let file = file_of(alloc, root, &name)?;
    modules.reserve(1)?;
    match read_module(alloc, modules.len() as u32, &file, &name, files) {
        Ok(source) => {
            modules.push_reserved((name, source));
            Ok(())
        }
        Err(fault) => Err(Stop::at(fault, file)),
    }
}

// The module of this name, from this file as the one of this number.
fn read_module<F: Files>(
    alloc: Global,
    number: u32,
    file: &Text,
    name: &Text,
    files: &mut F,
) -> Result<Module, ModuleFault>
    ensures keeps { F.held files.new ≡ F.held files.old }
    ensures counted { MatchResult result (λ m. F.faults files.new ≡ F.faults files.old)
        (IsCounted (F.faults files.old) (F.faults files.new)) }
    ensures read { MatchResult result (λ m. IsGiven (F.held files.old) number file.now m × (m.name ≡ name.now))
        (IsUnreadHere (F.held files.old) number file.now name.now) }
{
    let bytes = read_file(alloc, file, name, files)?;
    spelled(alloc, number, name, &bytes)
}
