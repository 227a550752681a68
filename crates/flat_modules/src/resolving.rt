// Expressions with each name's symbol in its place.
ghost use Rattle.std.specs.Prelude.{◌≡◌, ◌+◌, ◌≤◌, ◌∷◌, ◌++◌, [], Bool, true, false, List as Items, ◌==◌, ◌&&◌, ℕ, length, map, take, drop, get_or, replicate, reverse, if◌then◌else◌, IfOk, OnOk};
ghost use Rattle.tla_meaning.specs.Meaning.{Plain_role, role, except_marks};
ghost use Rattle.tla_meaning.specs.Resolving.{children, first_with, body_scope, itself, inner_marks, is_function, let_in, let_repeats, marked_in, misused, resolved_op, resolver};
ghost use Rattle.tla_meaning.specs.declared.expr.Expr.{out-Expr};
ghost use Rattle.tla_meaning.specs.Symbols.{all_repeated, bound, entry_of, parameter, repeated};
ghost use Rattle.flat_modules.specs.inner.Telling.{Declares, Tells, TellsAll, Told, node_misuses, own_count, own_scope};

use crate::entries::{announced, bound, first_of, let_name, parameter};
use crate::scope::Scope;
use std::alloc::{AllocError, Global};
use tla_meaning::{Entry, Expr, Kind, Misuse, Op, Place, copy_op};
use tla_values::{List, Text, copy_texts};

// What uses an operator's name without arguments in a fold is used with.
const FOLD_ARGUMENTS: usize = 2;

// The names in scope, and the misuse that is told: the first of the least so far.
#[derive(Drop)]
pub(crate) struct Resolving {
    pub(crate) alloc: Global,
    pub(crate) scope: Scope,
    pub(crate) told: Option<Misuse>,
}

impl Resolving {
    // The expression with its names resolved, where so many arguments stand beside its own. What is wrong with names in
    // it is told.
    #[cycle(resolve)]
    pub(crate) fn resolve(&mut self, e: &Expr, more: usize) -> Result<Expr, AllocError>
        requires { more ≤ 2 }
        ensures { Tells self.old self.new ((resolver e.now).resolve more self.old.scope) result }
    {
        self.tell_own(e, more)?;
        let op = self.resolved_op(&e.op)?;
        let args = self.children(e.place, &e.op, e.binds.as_slice(), e.args.as_slice())?;
        let binds = copy_texts(self.alloc, &e.binds)?;
        Ok(Expr {
            place: e.place,
            op,
            args: List::from_vec(args),
            binds,
        })
    }
}

// ---- what is wrong with the names of the node itself

impl Resolving {
    // Tells what is wrong with the names of the node itself.
    fn tell_own(&mut self, e: &Expr, more: usize) -> Result<(), AllocError>
        requires { more ≤ 2 }
        ensures { OnOk result (Told self.old self.new
            (node_misuses (out-Expr e.now) more self.old.scope)) }
    {
        let place = e.place;
        match &e.op {
            Op::Use(name) | Op::Param(name) => {
                self.tell_misuse(place, name.bytes(), e.args.as_slice().len() + more)
            }
            Op::Bound(name) => self.tell_misuse(place, name.bytes(), 0),
            Op::Let(lets) => self.tell_lets(place, lets.as_slice(), e.binds.as_slice()),
            Op::Fold => {
                self.tell_misuse(place, b"ApaFoldSeqLeft", 3)?;
                self.tell_bound(place, e.binds.as_slice())
            }
            Op::Except(_) => Ok(()),
            _ => self.tell_bound(place, e.binds.as_slice()),
        }
    }

    // Tells of the use of a name with so many arguments.
    pub(crate) fn tell_misuse(
        &mut self,
        place: Place,
        name: &[u8],
        count: usize,
    ) -> Result<(), AllocError>
        ensures { OnOk result (Told self.old self.new (misused place name.now count (entry_of name.now self.old.scope))) }
    {
        let misuse = match self.scope.find(name) {
            None => Misuse::Unknown(text_of(self.alloc, name)?, place),
            Some(entry) if entry.kind == Kind::InstanceName => {
                Misuse::Unknown(text_of(self.alloc, name)?, place)
            }
            Some(entry) if entry.arity == count => return Ok(()),
            Some(entry) => Misuse::Arity(place, count, entry.arity),
        };
        self.tell(misuse);
        Ok(())
    }

    // Tells of bound names that repeat names in scope or each other.
    fn tell_bound(&mut self, place: Place, names: &[Text]) -> Result<(), AllocError>
        ensures { OnOk result (Told self.old self.new (all_repeated self.old.scope (map (bound place) names.now))) }
    {
        let before = self.scope.len();
        for name in names {
            let entry = bound(self.alloc, place, name)?;
            self.declare(entry)?;
        }
        self.scope.cut(before);
        Ok(())
    }

    // Tells of parameters that repeat names in scope or each other.
    pub(crate) fn tell_parameters(&mut self, place: Place, names: &[Text]) -> Result<(), AllocError>
        ensures { OnOk result (Told self.old self.new (all_repeated self.old.scope (map (parameter place) names.now))) }
    {
        let before = self.scope.len();
        for name in names {
            let entry = parameter(self.alloc, place, name)?;
            self.declare(entry)?;
        }
        self.scope.cut(before);
        Ok(())
    }

    // Tells of the names and parameters of a LET that repeat names in scope or each other.
    fn tell_lets(
        &mut self,
        place: Place,
        lets: &[(Text, usize)],
        binds: &[Text],
    ) -> Result<(), AllocError>
        ensures { OnOk result (Told self.old self.new (let_repeats place self.old.scope lets.now binds.now)) }
    {
        let before = self.scope.len();
        let mut rest = binds;
        for (name, count) in lets {
            let entry = let_name(self.alloc, place, name, *count)?;
            self.tell_repeated(&entry)?;
            self.tell_parameters(place, front(rest, *count))?;
            self.scope.push(entry)?;
            rest = behind(rest, *count);
        }
        self.scope.cut(before);
        Ok(())
    }

    // Adds a name, and tells where it repeats one in scope.
    fn declare(&mut self, entry: Entry) -> Result<(), AllocError>
        ensures { OnOk result (Declares self.old self.new entry) }
    {
        self.tell_repeated(&entry)?;
        self.scope.push(entry)
    }

    // Tells where a name repeats one in scope.
    pub(crate) fn tell_repeated(&mut self, new: &Entry) -> Result<(), AllocError>
        ensures { OnOk result (Told self.old self.new (repeated self.old.scope new.now)) }
    {
        let misuses = self.scope.repeated(new)?;
        self.tell_all(misuses);
        Ok(())
    }

    // Tells of misuses, the last first.
    pub(crate) fn tell_all(&mut self, misuses: Vec<Misuse>)
        ensures { Told self.old self.new (reverse misuses.items) }
    {
        let mut rest = misuses;
        while let Some(misuse) = rest.pop() {
            self.tell(misuse);
        }
    }

    pub(crate) fn tell(&mut self, misuse: Misuse)
        ensures { Told self.old self.new (misuse ∷ []) }
    {
        let told = self.told.take();
        self.told = Some(first_of(told, misuse));
    }
}

// ---- children

impl Resolving {
    // The operator with the name's symbol in its place.
    fn resolved_op(&self, op: &Op) -> Result<Op, AllocError>
        ensures { (n : ℕ) → IfOk result (λ o. o ≡ resolved_op op.now (role op.now n) self.now.scope) }
    {
        match op {
            Op::Use(name) | Op::Param(name) => match self.scope.find(name.bytes()) {
                Some(entry) => copy_op(self.alloc, &entry.stands),
                None => copy_op(self.alloc, op),
            },
            _ => copy_op(self.alloc, op),
        }
    }

    // The children of a node, each in its scope.
    #[cycle(resolve)]
    fn children(
        &mut self,
        place: Place,
        op: &Op,
        binds: &[Text],
        args: &[Expr],
    ) -> Result<Vec<Expr>, AllocError>
        ensures { TellsAll self.old self.new
            (children place op.now binds.now (map resolver args.now) (role op.now (length binds.now)) self.old.scope) result }
    {
        match op {
            Op::Use(_) | Op::Param(_) | Op::Bound(_) => self.all(args, 0, 0),
            Op::Let(lets) => self.let_parts(place, lets.as_slice(), binds, args),
            Op::Fold => {
                if binds.is_empty() {
                    self.all(args, 0, FOLD_ARGUMENTS)
                } else {
                    self.marked(place, binds, &[true], args)
                }
            }
            _ => {
                let marks = marks(self.alloc, op, binds, args.len())?;
                self.marked(place, binds, &marks, args)
            }
        }
    }

    // The children from a place on in the scope of their node, where so many arguments stand beside those of the first.
    #[cycle(resolve)]
    fn all(&mut self, args: &[Expr], from: usize, more: usize) -> Result<Vec<Expr>, AllocError>
        requires { more ≤ 2 }
        ensures { TellsAll self.old self.new (first_with more self.old.scope (map resolver (drop from args.now))) result }
    {
        let mut trees = Vec::new(self.alloc);
        let mut beside = more;
        for i in from..args.len() {
            let tree = self.resolve(&args[i], beside)?;
            trees.push(tree)?;
            beside = 0;
        }
        Ok(trees)
    }

    // Children, of which those that are marked see the bound names.
    #[cycle(resolve)]
    fn marked(
        &mut self,
        place: Place,
        binds: &[Text],
        marks: &[bool],
        args: &[Expr],
    ) -> Result<Vec<Expr>, AllocError>
        ensures { TellsAll self.old self.new
            (marked_in self.old.scope (map (bound place) binds.now) marks.now (map resolver args.now)) result }
    {
        let mut trees = Vec::new(self.alloc);
        for i in 0..args.len() {
            let tree = self.inside(place, binds, is_marked(marks, i), &args[i])?;
            trees.push(tree)?;
        }
        Ok(trees)
    }

    // The body of a definition, which sees its parameters, and itself as announced with so many where it does.
    #[cycle(resolve)]
    pub(crate) fn body(
        &mut self,
        place: Place,
        name: &Text,
        parameters: &[Text],
        own: Option<usize>,
        e: &Expr,
    ) -> Result<Expr, AllocError>
        ensures { Tells self.old self.new ((resolver e.now).resolve 0 (own_scope self.old.scope place name.now parameters.now own)) result }
    {
        let before = self.scope.len();
        if let Some(count) = own {
            let entry = announced(self.alloc, place, name, count)?;
            self.scope.push(entry)?;
        }
        for parameter_name in parameters {
            let entry = parameter(self.alloc, place, parameter_name)?;
            self.scope.push(entry)?;
        }
        let tree = self.resolve(e, 0)?;
        self.scope.cut(before);
        Ok(tree)
    }

    // An expression that sees the bound names where it is marked.
    #[cycle(resolve)]
    fn inside(
        &mut self,
        place: Place,
        binds: &[Text],
        marked: bool,
        e: &Expr,
    ) -> Result<Expr, AllocError>
        ensures { Tells self.old self.new ((resolver e.now).resolve 0
            (if marked then self.old.scope ++ map (bound place) binds.now else self.old.scope)) result }
    {
        if !marked {
            return self.resolve(e, 0);
        }
        let before = self.scope.len();
        for name in binds {
            let entry = bound(self.alloc, place, name)?;
            self.scope.push(entry)?;
        }
        let tree = self.resolve(e, 0)?;
        self.scope.cut(before);
        Ok(tree)
    }

    // The definitions of a LET, each of which sees those before it and its parameters, and the expression after IN.
    #[cycle(resolve)]
    fn let_parts(
        &mut self,
        place: Place,
        lets: &[(Text, usize)],
        binds: &[Text],
        args: &[Expr],
    ) -> Result<Vec<Expr>, AllocError>
        ensures { TellsAll self.old self.new (let_in place self.old.scope lets.now binds.now (map resolver args.now)) result }
    {
        let before = self.scope.len();
        let count = usize::min(lets.len(), args.len());
        let mut rest = binds;
        let mut trees = Vec::new(self.alloc);
        for i in 0..count {
            let (name, parameters) = &lets[i];
            let part = &args[i];
            let own = own_function(*parameters, part);
            let tree = self.body(place, name, front(rest, *parameters), own, part)?;
            trees.push(tree)?;
            let entry = let_name(self.alloc, place, name, *parameters)?;
            self.scope.push(entry)?;
            rest = behind(rest, *parameters);
        }
        let mut last = self.all(args, count, 0)?;
        trees.append(&mut last)?;
        self.scope.cut(before);
        Ok(trees)
    }
}

// ---- parts of lists

fn text_of(alloc: Global, name: &[u8]) -> Result<Text, AllocError>
    ensures { IfOk result (λ t. t ≡ name.now) }
{
    let bytes = Vec::from_slice(alloc, name)?;
    Ok(Text::from_vec(bytes))
}

// The first n, or all where there are fewer.
fn front(names: &[Text], n: usize) -> &[Text]
    ensures { result.now ≡ take n names.now }
{
    if n < names.len() { &names[..n] } else { names }
}

// Those behind the first n.
fn behind(names: &[Text], n: usize) -> &[Text]
    ensures { result.now ≡ drop n names.now }
{
    if n < names.len() { &names[n..] } else { &[] }
}

// A function is announced inside itself.
fn own_function(parameters: usize, e: &Expr) -> Option<usize>
    ensures { result ≡ own_count parameters (parameters == 0 && is_function (out-Expr e.now).op) }
{
    if parameters == 0 && matches!(e.op, Op::Lambda) {
        Some(parameters)
    } else {
        None
    }
}

fn is_marked(marks: &[bool], i: usize) -> bool
    ensures { result ≡ get_or marks.now i false }
{
    i < marks.len() && marks[i]
}

// Which children of a node see its bound names.
fn marks(alloc: Global, op: &Op, binds: &[Text], count: usize) -> Result<Vec<bool>, AllocError>
    ensures { IfOk result (λ ms. (bs : Items Bool) → role op.now (length binds.now) ≡ Plain_role bs → ms.items ≡ inner_marks op.now binds.now count bs) }
{
    match op {
        Op::Exists | Op::Forall | Op::Filter | Op::MapTo | Op::Lambda => last_of(
            alloc,
            binds.len(),
        ),
        Op::Fold => Ok(Vec::from_slice(alloc, &[true])?),
        Op::Except(counts) => except_marks(alloc, counts.as_slice()),
        Op::Outside(_) if !binds.is_empty() && count > 0 => last_of(alloc, count - 1),
        _ => Ok(Vec::new(alloc)),
    }
}

// The one behind the first n.
fn last_of(alloc: Global, n: usize) -> Result<Vec<bool>, AllocError>
    ensures { IfOk result (λ ms. ms.items ≡ replicate n false ++ (true ∷ [])) }
{
    let mut marks = Vec::new(alloc);
    mark_behind(&mut marks, n)?;
    Ok(marks)
}

// The right sides of an EXCEPT with so many indexes in each update.
fn except_marks(alloc: Global, counts: &[usize]) -> Result<Vec<bool>, AllocError>
    ensures { IfOk result (λ ms. ms.items ≡ false ∷ except_marks counts.now) }
{
    let mut marks = Vec::from_slice(alloc, &[false])?;
    for count in counts {
        mark_behind(&mut marks, *count)?;
    }
    Ok(marks)
}

// Marks one behind n more.
fn mark_behind(marks: &mut Vec<bool>, n: usize) -> Result<(), AllocError>
    ensures { OnOk result (marks.new.items ≡ marks.old.items ++ (replicate n false ++ (true ∷ []))) }
{
    for _i in 0..n {
        marks.push(false)?;
    }
    marks.push(true)?;
    Ok(())
}
