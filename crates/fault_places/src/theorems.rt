// The law of places, as the contract of a function that does nothing.
ghost use Rattle.std.specs.Prelude.{◌≡◌, ◌++◌, ◌∷◌, IsTrue, List, ℕ};
ghost use Rattle.fault_places.specs.Places.{IsPlaced, job_places_below, places_below};
ghost use Rattle.tla_meaning.specs.Actions.{act, val};
ghost use Rattle.tla_meaning.specs.Executions.{invariant, next, no_scope, scope_of, start};
ghost use Rattle.tla_meaning.specs.Numbers.{Width};
ghost use Rattle.tla_meaning.specs.declared.actions.Assignable.{Assignable};
ghost use Rattle.tla_meaning.specs.declared.expr.Expr.{Expr};
ghost use Rattle.tla_meaning.specs.declared.job.Env.{Env};
ghost use Rattle.tla_meaning.specs.declared.job.Job.{Job};
ghost use Rattle.tla_meaning.specs.declared.job.State.{State};

/// Where the nodes of a tree, or of a job, stand in the first files, so do its faults. `each` is of each invariant by
/// itself.
pub fn faults_stand_in_their_trees()
    ensures values { (n : ℕ) (w : Width) (e : Expr) (env : Env) (s t : State) → IsTrue (places_below n e) → IsPlaced n (val w e (scope_of env) s t) }
    ensures actions { (n : ℕ) (w : Width) (m : Assignable) (e : Expr) (env : Env) (s t : State) → IsTrue (places_below n e) → IsPlaced n (act w m e (scope_of env) s t) }
    ensures starts { (n : ℕ) (w : Width) (job : Job) (s : State) → IsTrue (job_places_below n job) → IsPlaced n (start w job s) }
    ensures steps { (n : ℕ) (w : Width) (job : Job) (s t : State) → IsTrue (job_places_below n job) → IsPlaced n (next w job s t) }
    ensures invariants { (n : ℕ) (w : Width) (job : Job) (s : State) → IsTrue (job_places_below n job) → IsPlaced n (invariant w job s) }
    ensures each { (n : ℕ) (w : Width) (job : Job) (before behind : List (List ℕ × Expr)) (name : List ℕ) (e : Expr) (s t : State) → IsTrue (job_places_below n job) → job.invs ≡ before ++ (name, e) ∷ behind → IsPlaced n (val w e no_scope s t) }
{}
