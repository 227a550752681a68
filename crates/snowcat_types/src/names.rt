// The types of declared names.
ghost use Rattle.std.specs.Prelude.{[], All, IfOk, MatchOption, OnOk};
ghost use Rattle.snowcat_rows.specs.Readings.{Knows};
ghost use Rattle.snowcat_rows.specs.Views.{known_by};
ghost use Rattle.snowcat_types.specs.Annotated.{Aliases as Named, IsAnnotated};
ghost use Rattle.snowcat_types.specs.inner.Telling.{AreNamesRead, IsWithout, ReadsBesides};

use crate::earliest::earlier;
use crate::notes::annotation_of;
use crate::saying::name_type;
use snowcat_rows::{Aliases, Ty};
use std::alloc::{AllocError, Global};
use tla_meaning::{Decl, Place};

/// The types of declared names with the numbers of their variables, where each annotation is a type; and the least
/// place of a name whose annotation is none for a name.
#[derive(Drop)]
pub struct Names {
    pub types: Vec<(Ty, u32)>,
    pub worst: Option<Place>,
}

/// The first name without an annotation.
pub fn first_without(decls: &[Decl]) -> Option<&Decl>
    ensures { MatchOption result (All IsAnnotated decls.now) (λ d. IsWithout decls.now d.now) }
{
    for decl in decls {
        match annotation_of(decl.note.bytes()) {
            Some(_) => {}
            None => return Some(decl),
        }
    }
    None
}

impl Names {
    fn add(&mut self, alloc: Global, aliases: &Aliases, decl: &Decl) -> Result<(), AllocError>
        ensures { OnOk result (ReadsBesides (known_by aliases.now) self.old decl.now self.new) }
    {
        match name_type(alloc, aliases, decl)? {
            Some(read) => {
                self.types.push(read)?;
                Ok(())
            }
            None => {
                self.worst = Some(earlier(self.worst, decl.place));
                Ok(())
            }
        }
    }
}

/// The types of these names.
pub fn read_names(alloc: Global, aliases: &Aliases, decls: &[Decl]) -> Result<Names, AllocError>
    ensures { (al : Named) → Knows [] al (known_by aliases.now)
        → IfOk result (λ r. AreNamesRead al decls.now r.types.items r.worst) }
{
    let mut names = Names {
        types: Vec::new(alloc),
        worst: None,
    };
    for decl in decls {
        names.add(alloc, aliases, decl)?;
    }
    Ok(names)
}
