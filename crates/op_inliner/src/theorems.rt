// Laws of the definitions, each as the contract of a function that does nothing.
ghost use Rattle.std.specs.Prelude.{◌≡◌, ◌++◌, false, true, IsTrue, List, Option, ℕ};
ghost use Rattle.tla_meaning.specs.declared.expr.Expr.{Expr};
ghost use Rattle.tla_meaning.specs.declared.job.Job.{Job};
ghost use Rattle.tla_meaning.specs.declared.modules.Flat.{Flat};
ghost use Rattle.op_inliner.specs.declared.parts.PartKind.{PartKind};
ghost use Rattle.op_inliner.specs.Answers.{Gives, expand_answer, job_answer};
ghost use Rattle.op_inliner.specs.Known.{are_known};
ghost use Rattle.op_inliner.specs.Means.{IsJobOf, IsTreeOf, Means};
ghost use Rattle.op_inliner.specs.NamesBack.{among, free_name};

/// The tree that is answered of an operator means what the operator means in the module, at each width, in each state
/// and next state with the same constants: as an expression, as a set form and as an action. Nothing is defined in it,
/// no refused form stands in it, and its places are the module's.
pub fn trees_mean_their_definitions()
    ensures means { (flat : Flat) (x : List ℕ) (part : PartKind) (e : Expr) → IsTrue (are_known flat) → expand_answer flat x part ≡ Gives e → Means flat x e }
    ensures trees { (flat : Flat) (x : List ℕ) (part : PartKind) (e : Expr) → IsTrue (are_known flat) → expand_answer flat x part ≡ Gives e → IsTreeOf flat e }
{}

/// The job that is answered of a module and the names of its parts has the module's names, constants first, and each
/// part means what it means in the module.
pub fn jobs_mean_their_definitions()
    ensures { (flat : Flat) (init next : List ℕ) (cinit : Option (List ℕ)) (invs : List (List ℕ)) (job : Job) → IsTrue (are_known flat) → job_answer flat init next cinit invs ≡ Gives job → IsJobOf flat init next cinit invs job }
{}

/// A bound name that would capture another gets a name that nothing else there has.
pub fn captured_names_are_fresh()
    ensures { (there taken : List (List ℕ)) (x : List ℕ) → among x taken ≡ true → among (free_name there x taken) (taken ++ there) ≡ false }
{}
