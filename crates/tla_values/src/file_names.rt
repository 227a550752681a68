// The names of files and of the modules that they are to hold.
ghost use Rattle.std.specs.Prelude.{◌≡◌};
ghost use Rattle.tla_values.specs.FileNames.{module_name, without_ending, without_folder};

/// The module that a file of this name is to hold: its name without its folder and without `.tla` at the end.
pub fn module_name(file: &[u8]) -> &[u8]
    ensures { result.now ≡ module_name file.now }
{
    without_ending(without_folder(file))
}

/// The name of a file without its folder.
pub fn without_folder(file: &[u8]) -> &[u8]
    ensures { result.now ≡ without_folder file.now }
{
    for at in (0..file.len()).rev() {
        if file[at] == b'/' {
            return &file[at + 1..];
        }
    }
    file
}

fn without_ending(name: &[u8]) -> &[u8]
    ensures { result.now ≡ without_ending name.now }
{
    match name.strip_suffix(b".tla") {
        Some(stem) => stem,
        None => name,
    }
}
