// The files of modules.
ghost use Rattle.std.specs.Prelude.{◌≡◌, ◌≤◌, length, codes, IfOk, IfErr, MatchResult};
ghost use Rattle.tla_modules.specs.Sources.{IsHanded, file_of, folder_of, module_limit};
ghost use Rattle.tla_modules.specs.Refusals.{IsCounted};
ghost use Rattle.tla_modules.specs.inner.Reading.{IsBarredHere};

use crate::fault::ModuleFault;
use std::alloc::{AllocError, Global};
use std::str;
use tla_values::{Text, copy_text, module_name, without_folder};
use tool_outside::{FileFail, Files};

// How many bytes a file of a module may have.
const MODULE_LIMIT: u64 = 4_194_304;

// The file of a module: that of the root, or the module's name with `.tla` in the root's folder.
pub(crate) fn file_of(alloc: Global, root: &[u8], name: &Text) -> Result<Text, AllocError>
    ensures { IfOk result (λ t. t ≡ file_of root.now name.now) }
{
    if name.bytes().cmp(module_name(root)).is_eq() {
        return Ok(Text::from_vec(Vec::from_slice(alloc, root)?));
    }
    let mut file = Vec::from_slice(alloc, folder_of(root))?;
    file.extend_from_slice(name.bytes())?;
    file.extend_from_slice(b".tla")?;
    Ok(Text::from_vec(file))
}

// The folder of a file, with the slash at its end.
fn folder_of(file: &[u8]) -> &[u8]
    ensures { result.now ≡ folder_of file.now }
{
    &file[..file.len() - without_folder(file).len()]
}

// The bytes of the file of a module of this name.
pub(crate) fn read_file<F: Files>(
    alloc: Global,
    file: &Text,
    name: &Text,
    files: &mut F,
) -> Result<Vec<u8>, ModuleFault>
    ensures keeps { F.held files.new ≡ F.held files.old }
    ensures counted { MatchResult result (λ bytes. F.faults files.new ≡ F.faults files.old)
        (IsCounted (F.faults files.old) (F.faults files.new)) }
    ensures read { MatchResult result (λ bytes. IsHanded (F.held files.old) file.now bytes.items)
        (IsBarredHere (F.held files.old) file.now name.now) }
{
    let told_file = copy_text(alloc, file)?;
    let told_name = copy_text(alloc, name)?;
    let Ok(path) = str::from_utf8(file.bytes()) else {
        return Err(ModuleFault::Missing(told_name));
    };
    match files.read(alloc, path, MODULE_LIMIT) {
        Ok(Some(bytes)) => Ok(bytes),
        Ok(None) => Err(ModuleFault::Missing(told_name)),
        Err(FileFail::Failed) => Err(ModuleFault::Read(told_file)),
        Err(FileFail::TooLong) => Err(ModuleFault::TooLong(told_file)),
        Err(FileFail::Memory(fail)) => Err(ModuleFault::Memory(fail)),
    }
}
