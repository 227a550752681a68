// In which order the modules of a root are read.
ghost use Rattle.std.specs.Prelude.{◌≡◌, ◌∷◌, ◌++◌, [], IfOk};
ghost use Rattle.tla_meaning.specs.Flattening.{mentioned_files};
ghost use Rattle.tla_meaning.specs.ReadingOrder.{course, from_name, is_among, mention, one_by_one};
ghost use Rattle.flat_modules.specs.Courses.{course_of};

use crate::copies::find_last;
use crate::entries::same;
use crate::gathering::Sources;
use crate::order::mentioned_files;
use std::alloc::{AllocError, Global};
use tla_meaning::Module;
use tla_values::{List, Text, copy_text};

// How many modules are read.
const MOST_MODULES: usize = 64;

/// Where the modules that were read lead.
#[derive(Drop)]
pub enum Course {
    /// All that is mentioned was read, in this order.
    Whole(List<Text>),
    /// This module is to be read behind these.
    Next(Text, List<Text>),
    /// Modules of which each mentions the next, the first and last equal.
    Cycle(List<Text>),
    /// One more is mentioned where 64 were read.
    TooMany,
}

/// Where the modules of a root lead that were read: each at its first mention, before those that it mentions. (Lamport,
/// Specifying Systems, section 17.7.)
pub fn course_from(
    alloc: Global,
    modules: &[(Text, Module)],
    root: &[u8],
) -> Result<Course, AllocError>
    ensures { IfOk result (λ c. course_of c ≡ course modules.now root.now) }
{
    let name = Text::from_vec(Vec::from_slice(alloc, root)?);
    let read = Vec::new(alloc);
    match find_last(root, modules) {
        None => Ok(Course::Next(name, List::from_vec(read))),
        Some(source) => Sources { alloc, modules }.inside(65, &[], &name, source, read),
    }
}

impl<'a> Sources<'a> {
    // A mention, behind the modules of which each mentions the next.
    #[cycle(mention)]
    fn mention(
        self,
        depth: usize,
        chain: &[Text],
        name: &Text,
        read: Vec<Text>,
    ) -> Result<Course, AllocError>
        ensures { IfOk result (λ c. course_of c ≡ mention depth self.entry.modules.now chain.now name.now read.items) }
    {
        if depth == 0 {
            return Ok(Course::TooMany);
        }
        if is_among(name, chain) {
            let cycle = cycle(self.alloc, chain, name)?;
            return Ok(Course::Cycle(cycle));
        }
        if is_among(name, &read) {
            return Ok(Course::Whole(List::from_vec(read)));
        }
        if read.len() == MOST_MODULES {
            return Ok(Course::TooMany);
        }
        match find_last(name.bytes(), self.modules) {
            None => {
                let name = copy_text(self.alloc, name)?;
                Ok(Course::Next(name, List::from_vec(read)))
            }
            Some(source) => self.inside(depth - 1, chain, name, source, read),
        }
    }

    // What a module mentions, behind itself.
    #[cycle(mention)]
    fn inside(
        self,
        depth: usize,
        chain: &[Text],
        name: &Text,
        source: &Module,
        read: Vec<Text>,
    ) -> Result<Course, AllocError>
        ensures { IfOk result (λ c. course_of c ≡ one_by_one (mention depth self.entry.modules.now (chain.now ++ name.now ∷ [])) (mentioned_files source.now) (read.items ++ name.now ∷ [])) }
    {
        let chain = and_one(self.alloc, chain, name)?;
        let mut read = read;
        read.push(copy_text(self.alloc, name)?)?;
        let names = mentioned_files(self.alloc, source)?;
        self.one_by_one(depth, &chain, &names, read)
    }

    #[cycle(mention)]
    fn one_by_one(
        self,
        depth: usize,
        chain: &[Text],
        names: &[Text],
        read: Vec<Text>,
    ) -> Result<Course, AllocError>
        ensures { IfOk result (λ c. course_of c ≡ one_by_one (mention depth self.entry.modules.now chain.now) names.now read.items) }
    {
        let mut read = read;
        for name in names {
            let sources = Sources {
                alloc: self.alloc,
                modules: self.modules,
            };
            match sources.mention(depth, chain, name, read)? {
                Course::Whole(more) => read = more.into_vec(),
                Course::Next(next, more) => return Ok(Course::Next(next, more)),
                Course::Cycle(cycle) => return Ok(Course::Cycle(cycle)),
                Course::TooMany => return Ok(Course::TooMany),
            }
        }
        Ok(Course::Whole(List::from_vec(read)))
    }
}

pub(crate) fn is_among(name: &Text, names: &[Text]) -> bool
    ensures { result ≡ is_among name.now names.now }
{
    names.iter().any(|other| same(name, other))
}

// These names and one more.
fn and_one(alloc: Global, names: &[Text], name: &Text) -> Result<Vec<Text>, AllocError>
    ensures { IfOk result (λ v. v.items ≡ names.now ++ name.now ∷ []) }
{
    let mut more = Vec::new(alloc);
    for other in names {
        more.push(copy_text(alloc, other)?)?;
    }
    more.push(copy_text(alloc, name)?)?;
    Ok(more)
}

// The names from this one on, and it again.
fn cycle(alloc: Global, chain: &[Text], name: &Text) -> Result<List<Text>, AllocError>
    ensures { IfOk result (λ l. l ≡ from_name name.now chain.now ++ name.now ∷ []) }
{
    let names = and_one(alloc, from_name(chain, name), name)?;
    Ok(List::from_vec(names))
}

fn from_name<'a>(names: &'a [Text], name: &Text) -> &'a [Text]
    ensures { result.now ≡ from_name name.now names.now }
{
    for i in 0..names.len() {
        if same(name, &names[i]) {
            return &names[i..];
        }
    }
    &[]
}
