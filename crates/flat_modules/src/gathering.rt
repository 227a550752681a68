// What is known of a module with all that it mentions.
ghost use Rattle.std.specs.Prelude.{◌≡◌, ◌-◌, ℕ, Some, IfOk, OnOk};
ghost use Rattle.tla_meaning.specs.Flattening.{Known, after_extends, after_module, after_unit, after_units, known_within, nothing_known};
ghost use Rattle.flat_modules.specs.inner.Copies.{copy_of};
ghost use Rattle.flat_modules.specs.inner.Gathering.{Follows, Fits, IsExtended, Reaches, Remembers, unit_of};
ghost use Rattle.flat_modules.specs.inner.Learning.{IsKnown};

use crate::copies::{Meaning, ModuleCopy, find_last};
use crate::instances::{Instance, InstanceParts};
use crate::knowing::Knowing;
use crate::memo::{Extended, Memo};
use crate::shared::Shared;
use std::alloc::{AllocError, Global};
use tla_meaning::{Misuse, Module, Unit};
use tla_values::Text;

// The modules of a root by their names.
#[derive(Clone, Copy)]
pub(crate) struct Sources<'a> {
    pub(crate) alloc: Global,
    pub(crate) modules: &'a [(Text, Module)],
}

// The same, where no module mentions others more than so deep.
#[derive(Clone, Copy)]
pub(crate) struct Walk<'a> {
    pub(crate) alloc: Global,
    pub(crate) modules: &'a [(Text, Module)],
    pub(crate) depth: usize,
}

// What is known of a module.
#[derive(Drop)]
pub(crate) struct Reached {
    pub(crate) knowing: Knowing,
    // How many levels of modules fewer would do; none where more may bring in more.
    pub(crate) spare: Option<usize>,
}

impl<'a> Walk<'a> {
    // What is known of a module at its end. Told is the first of the least misuses, with what was told before.
    #[cycle(known)]
    pub(crate) fn known(
        self,
        copy: &ModuleCopy<'a>,
        told: Option<Misuse>,
        memo: &mut Memo,
    ) -> Result<Reached, AllocError>
        requires { Remembers self.modules.now (copy_of copy.now) memo.old }
        ensures known { IfOk result (λ r. Reaches r.spare self.entry.depth (λ n. IsKnown told r.knowing (known_within n self.entry.modules.now (copy_of copy.now)))) }
        ensures kept { OnOk result (Remembers self.entry.modules.now (copy_of copy.now) memo.new) }
    {
        if self.depth == 0 {
            return Ok(Reached::nothing(self.alloc, told, None));
        }
        let depth = self.depth - 1;
        if let Some(standard) = copy.standard() {
            let knowing = Knowing::standard(self.alloc, standard, told)?;
            return Ok(Reached {
                knowing,
                spare: Some(depth),
            });
        }
        match find_last(copy.name, self.modules) {
            None => Ok(Reached::nothing(self.alloc, told, Some(depth))),
            Some(source) => {
                let walk = Walk {
                    alloc: self.alloc,
                    modules: self.modules,
                    depth,
                };
                let reached = walk.at_end(copy, source, told, memo)?;
                Ok(Reached {
                    knowing: reached.knowing,
                    spare: least(reached.spare, Some(depth)),
                })
            }
        }
    }

    // What is known at the end of a module that is read from a file.
    #[cycle(known)]
    fn at_end(
        self,
        copy: &ModuleCopy<'a>,
        source: &'a Module,
        told: Option<Misuse>,
        memo: &mut Memo,
    ) -> Result<Reached, AllocError>
        requires { Remembers self.modules.now (copy_of copy.now) memo.old }
        ensures known { IfOk result (λ r. Reaches r.spare self.entry.depth (λ n. IsKnown told r.knowing (after_module (known_within n self.entry.modules.now) (copy_of copy.now) (Some source.now)))) }
        ensures kept { OnOk result (Remembers self.entry.modules.now (copy_of copy.now) memo.new) }
    {
        let reached = self.extends(copy, source.extends.as_slice(), told, memo)?;
        self.units(reached, copy, source.units.as_slice())
    }

    #[cycle(known)]
    fn extends(
        self,
        copy: &ModuleCopy<'a>,
        names: &'a [Text],
        told: Option<Misuse>,
        memo: &mut Memo,
    ) -> Result<Reached, AllocError>
        requires { Remembers self.modules.now (copy_of copy.now) memo.old }
        ensures known { IfOk result (λ r. Reaches r.spare self.entry.depth (λ n. IsKnown told r.knowing (after_extends (known_within n self.entry.modules.now) (copy_of copy.now) nothing_known names.now))) }
        ensures kept { OnOk result (Remembers self.entry.modules.now (copy_of copy.now) memo.new) }
    {
        let mut reached = Reached::nothing(self.alloc, told, Some(self.depth));
        for name in names {
            let inside = self.extended(copy, name.bytes(), memo)?;
            reached.knowing.extend(inside.knowing.get())?;
            reached.spare = least(reached.spare, inside.spare);
        }
        Ok(reached)
    }

    // What is known of a module that this one extends.
    #[cycle(known)]
    fn extended(
        self,
        copy: &ModuleCopy<'a>,
        name: &'a [u8],
        memo: &mut Memo,
    ) -> Result<Extended, AllocError>
        requires { Remembers self.modules.now (copy_of copy.now) memo.old }
        ensures known { IfOk result (λ e. IsExtended e self.entry.modules.now (copy_of copy.now) name.now self.entry.depth) }
        ensures kept { OnOk result (Remembers self.entry.modules.now (copy_of copy.now) memo.new) }
    {
        if let Some(inside) = memo.find(name, self.depth)? {
            return Ok(inside);
        }
        let reached = self.known(&copy.extended(name), None, memo)?;
        let inside = reached.shared(self.alloc)?;
        memo.keep(self.alloc, name, self.depth, &inside)?;
        Ok(inside)
    }

    #[cycle(known)]
    fn units(
        self,
        reached: Reached,
        copy: &ModuleCopy<'a>,
        units: &'a [Unit],
    ) -> Result<Reached, AllocError>
        ensures { IfOk result (λ r. Follows reached r self.entry.depth (λ n s. after_units (known_within n self.entry.modules.now) (copy_of copy.now) s units.now)) }
    {
        let mut reached = reached;
        for unit in units {
            reached = self.unit(reached, copy, unit)?;
        }
        Ok(reached)
    }

    #[cycle(known)]
    fn unit(
        self,
        reached: Reached,
        copy: &ModuleCopy<'a>,
        unit: &'a Unit,
    ) -> Result<Reached, AllocError>
        ensures { IfOk result (λ r. Follows reached r self.entry.depth (λ n s. after_unit (known_within n self.entry.modules.now) (copy_of copy.now) s unit.now)) }
    {
        match unit {
            Unit::Instance(name, source, with, local, place) => {
                let unit = Instance {
                    name,
                    module: source,
                    with: with.as_slice(),
                    local: *local,
                    place: *place,
                };
                self.instance(reached, copy, &unit)
            }
            unit => {
                let knowing = reached.knowing.after(copy, unit)?;
                Ok(Reached {
                    knowing,
                    spare: reached.spare,
                })
            }
        }
    }

    #[cycle(known)]
    fn instance(
        self,
        reached: Reached,
        copy: &ModuleCopy<'a>,
        unit: &Instance<'a>,
    ) -> Result<Reached, AllocError>
        ensures { IfOk result (λ r. Follows reached r self.entry.depth (λ n s. after_unit (known_within n self.entry.modules.now) (copy_of copy.now) s (unit_of unit.now))) }
    {
        let Reached { knowing, spare } = reached;
        let parts = InstanceParts::new(self.alloc, copy, unit)?;
        let meaning = Meaning::Instance(&knowing.resolving.scope, unit.with, &parts.with_prefix);
        let inner = ModuleCopy {
            name: unit.module.bytes(),
            prefix: &parts.prefix,
            way: &parts.way,
            meaning,
            root: false,
        };
        let walk = Walk {
            alloc: self.alloc,
            modules: self.modules,
            depth: self.depth,
        };
        let mut memo = Memo::new(self.alloc);
        let inside = walk.known(&inner, None, &mut memo)?;
        let mut knowing = knowing;
        knowing.instance(unit, &parts.with_prefix, inside.knowing)?;
        Ok(Reached {
            knowing,
            spare: least(spare, inside.spare),
        })
    }
}

impl Reached {
    // Nothing is known, where this misuse was told before.
    fn nothing(alloc: Global, told: Option<Misuse>, spare: Option<usize>) -> Reached
        ensures known { IsKnown told result.knowing nothing_known }
        ensures spare { result.spare ≡ spare }
    {
        Reached {
            knowing: Knowing::new(alloc, told),
            spare,
        }
    }

    fn shared(self, alloc: Global) -> Result<Extended, AllocError>
        ensures { IfOk result (λ e. (e.knowing ≡ self.knowing) × (e.spare ≡ self.spare)) }
    {
        let Reached { knowing, spare } = self;
        let knowing = Shared::new(alloc, knowing)?;
        Ok(Extended { knowing, spare })
    }
}

// So many levels fewer would do for both.
fn least(a: Option<usize>, b: Option<usize>) -> Option<usize>
    ensures { (d n : ℕ) → Fits result d n → Fits a d n × Fits b d n }
{
    match (a, b) {
        (Some(a), Some(b)) => Some(usize::min(a, b)),
        _ => None,
    }
}
