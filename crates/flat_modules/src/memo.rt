// What is known of modules that others extend.
ghost use Rattle.std.specs.Prelude.{IfOk, IfSome, OnOk};
ghost use Rattle.tla_meaning.specs.Flattening.{Copy, Modules};
ghost use Rattle.flat_modules.specs.inner.Gathering.{IsExtended, IsKept, Remembers};

use crate::copies::find_last;
use crate::knowing::Knowing;
use crate::shared::Shared;
use std::alloc::{AllocError, Global};
use tla_values::Text;

// What is known of a module that another extends.
#[derive(Drop)]
pub(crate) struct Extended {
    pub(crate) knowing: Shared<Knowing>,
    // How many levels of modules fewer would do; none where more may bring in more.
    pub(crate) spare: Option<usize>,
}

// The same with how many levels are enough.
#[derive(Drop)]
pub(crate) struct Kept {
    knowing: Shared<Knowing>,
    levels: usize,
}

// What is known of the modules that are extended, under one meaning of their declared names.
#[derive(Drop)]
pub(crate) struct Memo {
    kept: Vec<(Text, Kept)>,
}

impl Memo {
    pub(crate) fn new(alloc: Global) -> Memo
        ensures { (ms : Modules) (k : Copy) → Remembers ms k result }
    {
        Memo {
            kept: Vec::new(alloc),
        }
    }

    // What is known of a module, where that is kept and so many levels are enough.
    pub(crate) fn find(&self, name: &[u8], depth: usize) -> Result<Option<Extended>, AllocError>
        ensures { (ms : Modules) (k : Copy) → Remembers ms k self.now → IfOk result (λ o. IfSome o (λ e. IsExtended e ms k name.now depth)) }
    {
        match find_last(name, &self.kept) {
            None => Ok(None),
            Some(kept) => kept.at(depth),
        }
    }

    // Keeps what is known of a module at a depth.
    pub(crate) fn keep(
        &mut self,
        alloc: Global,
        name: &[u8],
        depth: usize,
        inside: &Extended,
    ) -> Result<(), AllocError>
        ensures { (ms : Modules) (k : Copy) → Remembers ms k self.old → IsExtended inside.now ms k name.now depth → OnOk result (Remembers ms k self.new) }
    {
        let Some(spare) = inside.spare else {
            return Ok(());
        };
        let name = Text::from_vec(Vec::from_slice(alloc, name)?);
        let kept = Kept {
            knowing: inside.knowing.share()?,
            levels: depth.saturating_sub(spare),
        };
        self.kept.push((name, kept))?;
        Ok(())
    }
}

impl Kept {
    // The same at a depth, where that is enough.
    fn at(&self, depth: usize) -> Result<Option<Extended>, AllocError>
        ensures { IfOk result (λ o. IfSome o (IsKept self.now depth)) }
    {
        if depth < self.levels {
            return Ok(None);
        }
        let knowing = self.knowing.share()?;
        Ok(Some(Extended {
            knowing,
            spare: Some(depth - self.levels),
        }))
    }
}
