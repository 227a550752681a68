// The type aliases of a root's modules.
ghost use Rattle.std.specs.Prelude.{◌≡◌, ◌∷◌, ◌++◌, [], true, IfOk, OnOk, if◌then◌else◌};
ghost use Rattle.tla_meaning.specs.Flattening.{Modules, aliases_of};
ghost use Rattle.tla_meaning.specs.ReadingOrder.{is_among};
ghost use Rattle.flat_modules.specs.inner.Orders.{AddsBehind, AreBehind, aliases_at, all_among, names_behind, with_names};

use crate::copies::find_last;
use crate::course::is_among;
use crate::gathering::Sources;
use crate::order::mentioned_files;
use std::alloc::{AllocError, Global};
use tla_values::{List, Text, copy_text};

// Modules, each behind those that it mentions.
#[derive(Drop)]
struct Behind {
    names: Vec<Text>,
    // How deep each was walked; no less deep walk finds others.
    walked: Vec<(Text, usize)>,
}

impl<'a> Sources<'a> {
    // The aliases of the modules that a module mentions and of itself, each module where it comes first.
    pub(crate) fn aliases(self, root: &Text) -> Result<List<(Text, Text)>, AllocError>
        ensures { IfOk result (λ l. l ≡ aliases_of self.entry.modules.now root.now) }
    {
        let mut behind = Behind::new(self.alloc);
        self.add_behind(self.modules.len(), root, &mut behind)?;
        let mut aliases = Vec::new(self.alloc);
        for name in &behind.names {
            add_aliases(self, name, &mut aliases)?;
        }
        Ok(List::from_vec(aliases))
    }

    // Adds the modules that a module mentions and then itself, but for those that are there.
    fn add_behind(self, depth: usize, name: &Text, behind: &mut Behind) -> Result<(), AllocError>
        requires { AreBehind self.modules.now behind.old }
        ensures added { OnOk result (behind.new.names.items ≡ with_names behind.old.names.items (names_behind depth self.entry.modules.now name.now)) }
        ensures kept { OnOk result (AreBehind self.entry.modules.now behind.new) }
    {
        if depth == 0 {
            return Ok(());
        }
        if behind.is_walked(name, depth) {
            return Ok(());
        }
        let Some(source) = find_last(name.bytes(), self.modules) else {
            return Ok(());
        };
        let names = mentioned_files(self.alloc, source)?;
        for other in &names {
            let sources = Sources {
                alloc: self.alloc,
                modules: self.modules,
            };
            sources.add_behind(depth - 1, other, behind)?;
        }
        behind.add(self.alloc, name, depth)
    }
}

impl Behind {
    fn new(alloc: Global) -> Behind
        ensures names { result.names.items ≡ [] }
        ensures kept { (ms : Modules) → AreBehind ms result }
    {
        Behind {
            names: Vec::new(alloc),
            walked: Vec::new(alloc),
        }
    }

    // Whether the modules that a module mentions are there, so deep.
    fn is_walked(&self, name: &Text, depth: usize) -> bool
        ensures { (ms : Modules) → AreBehind ms self.now → result ≡ true → all_among self.now.names.items (names_behind depth ms name.now) ≡ true }
    {
        match find_last(name.bytes(), &self.walked) {
            None => false,
            Some(walked) => depth <= *walked,
        }
    }

    // Adds a module, all of whose mentions are there so deep.
    fn add(&mut self, alloc: Global, name: &Text, depth: usize) -> Result<(), AllocError>
        ensures { OnOk result (AddsBehind self.old self.new name.now depth) }
    {
        add_name(alloc, name, &mut self.names)?;
        self.walked.push((copy_text(alloc, name)?, depth))?;
        Ok(())
    }
}

fn add_name(alloc: Global, name: &Text, seen: &mut Vec<Text>) -> Result<(), AllocError>
    ensures { OnOk result (seen.new.items ≡ (if is_among name.now seen.old.items then seen.old.items else seen.old.items ++ name.now ∷ [])) }
{
    if is_among(name, seen) {
        return Ok(());
    }
    seen.push(copy_text(alloc, name)?)?;
    Ok(())
}

fn add_aliases(sources: Sources, name: &Text, out: &mut Vec<(Text, Text)>) -> Result<(), AllocError>
    ensures { OnOk result (out.new.items ≡ out.old.items ++ aliases_at sources.entry.modules.now name.now) }
{
    match find_last(name.bytes(), sources.modules) {
        None => Ok(()),
        Some(source) => add_copies(sources.alloc, source.aliases.as_slice(), out),
    }
}

fn add_copies(
    alloc: Global,
    aliases: &[(Text, Text)],
    out: &mut Vec<(Text, Text)>,
) -> Result<(), AllocError>
    ensures { OnOk result (out.new.items ≡ out.old.items ++ aliases.now) }
{
    for (name, text) in aliases {
        let name = copy_text(alloc, name)?;
        let text = copy_text(alloc, text)?;
        out.push((name, text))?;
    }
    Ok(())
}
