// The names of certificates.
ghost use Rattle.std.specs.Prelude.{◌≡◌, string_bytes, IfOk};
ghost use Rattle.tla_values.specs.FileNames.{without_ending};
ghost use Rattle.symbolic_mc.specs.Naming.{certificate_name};

use std::alloc::{AllocError, Global};

/// The name of the certificate of a module's file.
pub(crate) fn certificate_of(alloc: Global, file: &str) -> Result<String, AllocError>
    ensures { IfOk result (λ name. string_bytes name ≡ certificate_name file.now) }
{
    let stem = without_ending(file);
    let name = format!(in alloc; "{stem}.cert")?;
    Ok(name)
}

// The name without `.tla` at its end.
fn without_ending(file: &str) -> &str
    ensures { result.now ≡ without_ending file.now }
{
    match file.strip_suffix(".tla") {
        Some(stem) => stem,
        None => file,
    }
}
