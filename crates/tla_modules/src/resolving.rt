// The flat module of a root that is read from files.
ghost use Rattle.std.specs.Prelude.{◌≡◌, ◌++◌, [], Option, None, IfErr, IfOk, MatchResult};
ghost use Rattle.tla_meaning.specs.Flattening.{flat_of, misuse_of};
ghost use Rattle.tla_meaning.specs.declared.modules.Flat.{Flat as Joined};
ghost use Rattle.tla_modules.specs.Answers.{IsFlatModule, IsTold};
ghost use Rattle.tla_modules.specs.Refusals.{IsCounted, IsOutside, IsRefused};
ghost use Rattle.tla_modules.specs.Sources.{AreRead, AreWhole, file_of, files_of};
ghost use Rattle.tla_modules.specs.inner.Reading.{IsCalm, IsSameOrWant, IsStop, IsUnjoined, fault_of, file_in};
ghost use Rattle.tla_values.specs.FileNames.{module_name};
ghost use Rattle.tool_outside.specs.Outside.{Folder};

use crate::fault::{ModuleFault, ModuleRefusal, Stop};
use crate::files::file_of;
use crate::reading::read_all;
use flat_modules::{flat_of, misuse_of};
use std::alloc::{AllocError, Global};
use tla_meaning::{Flat, Misuse, Module};
use tla_values::{List, Text, module_name};
use tool_outside::Files;

/// The flat module of the root in a file. It reads the root, then each module of EXTENDS and INSTANCE at its first mention,
/// before those that it mentions, from `NAME.tla` in the root's folder: at most 64 modules of at most 4,194,304 bytes
/// each. (Lamport, Specifying Systems, chapters 4 and 17.)
pub fn resolve<F: Files>(alloc: Global, root: &str, files: &mut F) -> Result<Flat, ModuleRefusal>
    ensures keeps { F.held files.new ≡ F.held files.old }
    ensures counted { MatchResult result (λ f. F.faults files.new ≡ F.faults files.old)
        (λ r. IsCounted (F.faults files.old) (F.faults files.new) r.fault) }
    ensures answer { MatchResult result (IsFlatModule (F.held files.old) root.now)
        (IsRefused (F.held files.old) root.now) }

    // Where the files are told, a flat module is the one answer but for a failed read and want of memory.
    ensures one { (f : Joined) → IsTold (F.held files.old)
        → IsFlatModule (F.held files.old) root.now f
        → MatchResult result (λ g. g ≡ f) (λ r. IsOutside r.fault) }
{
    let root = root.as_bytes();
    let mut modules = Vec::new(alloc);
    match read_all(alloc, root, files, &mut modules) {
        Ok(()) => joined(alloc, root, &modules),
        Err(stop) => Err(refusal(alloc, root, &modules, stop)),
    }
}

// The flat module of a root whose modules were all read.
fn joined(alloc: Global, root: &[u8], modules: &[(Text, Module)]) -> Result<Flat, ModuleRefusal>
    ensures answer { (held : Option Folder) → AreRead held root.now [] modules.now → AreWhole modules.now root.now
        → MatchResult result (IsFlatModule held root.now) (IsRefused held root.now) }
    ensures calm { IfErr result (λ r. IsCalm r.fault) }
{
    match flat(alloc, root, modules) {
        Ok(flat) => Ok(flat),
        Err(fault) => Err(refusal(alloc, root, modules, Stop::of(fault))),
    }
}

fn flat(alloc: Global, root: &[u8], modules: &[(Text, Module)]) -> Result<Flat, ModuleFault>
    ensures { MatchResult result (λ f. (misuse_of modules.now ≡ None) × (f ≡ flat_of (file_of root.now) modules.now (module_name root.now)))
        (IsUnjoined modules.now) }
{
    if let Some(misuse) = misuse_of(alloc, modules)? {
        return Err(fault_of(misuse));
    }
    let files = files_of(alloc, root, modules)?;
    let flat = flat_of(alloc, files, modules, module_name(root))?;
    Ok(flat)
}

fn fault_of(misuse: Misuse) -> ModuleFault
    ensures { result ≡ fault_of misuse }
{
    match misuse {
        Misuse::Unknown(name, place) => ModuleFault::Unknown(name, place),
        Misuse::Twice(name, first, second) => ModuleFault::Twice(name, first, second),
        Misuse::Arity(place, found, wanted) => ModuleFault::Arity(place, found, wanted),
    }
}

// The names of the files of modules.
fn files_of(
    alloc: Global,
    root: &[u8],
    modules: &[(Text, Module)],
) -> Result<List<Text>, AllocError>
    ensures { IfOk result (λ l. l ≡ files_of root.now modules.now) }
{
    let mut files = Vec::new(alloc);
    for (name, _) in modules {
        files.push(file_of(alloc, root, name)?)?;
    }
    Ok(List::from_vec(files))
}

// The refusal of a root behind these modules.
fn refusal(alloc: Global, root: &[u8], modules: &[(Text, Module)], stop: Stop) -> ModuleRefusal
    ensures refused { (held : Option Folder) → AreRead held root.now [] modules.now → IsStop held root.now modules.now stop
        → IsRefused held root.now result }
    ensures fault { IsSameOrWant stop.fault result.fault }
{
    let Stop { fault, file } = stop;
    match told_files(alloc, root, modules, file) {
        Ok(files) => ModuleRefusal { files, fault },
        Err(fail) => ModuleRefusal {
            files: List::new(alloc),
            fault: ModuleFault::Memory(fail),
        },
    }
}

// The files of modules, and one more where there is one.
fn told_files(
    alloc: Global,
    root: &[u8],
    modules: &[(Text, Module)],
    file: Option<Text>,
) -> Result<List<Text>, AllocError>
    ensures { IfOk result (λ l. l ≡ files_of root.now modules.now ++ file_in file) }
{
    let mut files = files_of(alloc, root, modules)?;
    if let Some(file) = file {
        files.push(file)?;
    }
    Ok(files)
}
