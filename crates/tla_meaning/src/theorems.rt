// Laws of the definitions, each as the contract of a function that does nothing.
ghost use Rattle.std.specs.Prelude.{◌≡◌, ◌≤◌, ◌↔◌, ◌++◌, All, Bool, IsTrue, List, None, Some, length, nat_lt, slice_get, suc, ℕ};
ghost use Rattle.tla_meaning.specs.Actions.{act, meaning, val};
ghost use Rattle.tla_meaning.specs.Executions.{Errs, IsExecution, constants, invariant, next, scope_of, start};
ghost use Rattle.tla_meaning.specs.FreeNames.{SameOn, closed};
ghost use Rattle.tla_meaning.specs.Inductive.{IsFirstTyped, IsInductiveError, NoneHoldsTyped};
ghost use Rattle.tla_meaning.specs.Jobs.{IsJob};
ghost use Rattle.tla_meaning.specs.Numbers.{Width};
ghost use Rattle.tla_meaning.specs.Questions.{IsBigOutcome, IsFirst, NoneBelow, NoneHolds};
ghost use Rattle.tla_meaning.specs.declared.questions.Query.TheVariants.{InvNotTrue, StepWrong};
ghost use Rattle.tla_meaning.specs.Renamings.{OneToOne, Renames, Renaming, rename};
ghost use Rattle.tla_meaning.specs.Scopes.{Scope};
ghost use Rattle.tla_meaning.specs.declared.actions.Assignable.{Assignable};
ghost use Rattle.tla_meaning.specs.Substitution.{Given, Within, binds_apart, each, give, put};
ghost use Rattle.tla_meaning.specs.Widths.{Narrow};
ghost use Rattle.tla_meaning.specs.declared.expr.Decl.{Decl};
ghost use Rattle.tla_meaning.specs.declared.expr.Expr.{Expr};
ghost use Rattle.tla_meaning.specs.declared.job.Env.{Env};
ghost use Rattle.tla_meaning.specs.declared.job.Job.{Job};
ghost use Rattle.tla_meaning.specs.declared.job.State.{State};
ghost use Rattle.tla_meaning.specs.declared.outcome.Fault.{Fault};
ghost use Rattle.tla_meaning.specs.declared.outcome.Fault.TheVariants.{NoFault};
ghost use Rattle.tla_meaning.specs.declared.outcome.Outcome.{Outcome};
ghost use Rattle.tla_meaning.specs.declared.outcome.Outcome.TheVariants.{Val};
ghost use Rattle.tla_meaning.specs.Outcomes.{join_faults, joined};
ghost use Rattle.tla_values.specs.Sets.{Normal};
ghost use Rattle.tla_values.specs.declared.value.Value.{Value};

/// The faults of several operands may be joined in any order and as often as one likes.
pub fn faults_join()
    ensures commutative { (f g : Fault) → join_faults f g ≡ join_faults g f }
    ensures associative { (f g h : Fault) → join_faults (join_faults f g) h ≡ join_faults f (join_faults g h) }
    ensures idempotent { (f : Fault) → join_faults f f ≡ f }
    ensures unit { (f : Fault) → join_faults f NoFault ≡ f }
    ensures lists { (os more : List Outcome) → joined (os ++ more) ≡ join_faults (joined os) (joined more) }
{}

/// What comes out under a width is Big, or is what comes out without a width, or is Wrong where that is Wrong too,
/// perhaps at another place.
pub fn widths_agree()
    ensures values { (w : Width) (e : Expr) (env : Env) (s t : State) → Narrow w (val w e (scope_of env) s t) (val None e (scope_of env) s t) }
    ensures actions { (w : Width) (m : Assignable) (e : Expr) (env : Env) (s t : State) → Narrow w (act w m e (scope_of env) s t) (act None m e (scope_of env) s t) }
    ensures starts { (w : Width) (job : Job) (s : State) → Narrow w (start w job s) (start None job s) }
    ensures steps { (w : Width) (job : Job) (s t : State) → Narrow w (next w job s t) (next None job s t) }
    ensures invariants { (w : Width) (job : Job) (s : State) → Narrow w (invariant w job s) (invariant None job s) }
    ensures executions { (w : Width) (job : Job) (ss : List State) → IsExecution w job ss → IsExecution None job ss }
{}

/// Without a width no integer is too big.
pub fn nothing_is_big_without_a_width()
    ensures values { (e : Expr) (env : Env) (s t : State) → IsBigOutcome (val None e (scope_of env) s t) → ⊥ }
    ensures actions { (m : Assignable) (e : Expr) (env : Env) (s t : State) → IsBigOutcome (act None m e (scope_of env) s t) → ⊥ }
    ensures starts { (job : Job) (s : State) → IsBigOutcome (start None job s) → ⊥ }
    ensures steps { (job : Job) (s t : State) → IsBigOutcome (next None job s t) → ⊥ }
    ensures invariants { (job : Job) (s : State) → IsBigOutcome (invariant None job s) → ⊥ }
{}

/// Where no question holds below a level, the executions that lead to states below it are those under the width. A
/// level errs where the first question that holds is of an operator outside its domain or of an invariant that is not
/// TRUE, and does not err where no question holds at it or below it.
pub fn questions_tell_errors()
    ensures executions { (w n : ℕ) (job : Job) (ss : List State) → NoneBelow (Some w) job n → length ss ≤ n → IsExecution None job ss ↔ IsExecution (Some w) job ss }
    ensures step_wrong { (w n : ℕ) (job : Job) → IsFirst (Some w) job n StepWrong → Errs job n }
    ensures not_true { (w n : ℕ) (job : Job) → IsFirst (Some w) job n InvNotTrue → Errs job n }
    ensures none { (w n : ℕ) (job : Job) → NoneBelow (Some w) job (suc n) → Errs job n → ⊥ }
{}

/// There is an inductive error where the first question that holds, of level 0 and then of the typed states, is of an
/// operator outside its domain or of an invariant that is not TRUE, and none where no question holds.
pub fn typed_questions_tell_errors()
    ensures step_wrong { (within : State → Bool) (w : ℕ) (job : Job) → IsFirstTyped within (Some w) job StepWrong → IsInductiveError within job }
    ensures not_true { (within : State → Bool) (w : ℕ) (job : Job) → IsFirstTyped within (Some w) job InvNotTrue → IsInductiveError within job }
    ensures none { (within : State → Bool) (w : ℕ) (job : Job) → NoneHolds (Some w) job 0 → NoneHoldsTyped within (Some w) job → IsInductiveError within job → ⊥ }
{}

/// A declared name is a constant exactly where its number is below the number of constants.
pub fn constants_stand_first()
    ensures { (job : Job) (i : ℕ) (d : Decl) → IsJob job → slice_get job.names i ≡ Some d → d.constant ≡ nat_lt i (constants job) }
{}

/// Every value of a tree over normal states and normal bound values is normal.
pub fn values_are_normal()
    ensures { (w : Width) (e : Expr) (env : Env) (s t : State) (v : Value) → All (λ b. Normal b.1) env.vals → All Normal s.vals → All Normal t.vals → val w e (scope_of env) s t ≡ Val v → Normal v }
{}

/// What a tree means depends only on the names that it reads.
pub fn trees_read_their_free_names()
    ensures { (w : Width) (N B : List ℕ → Bool) (e : Expr) (a b : Scope) → IsTrue (closed N e B) → SameOn N B a b → meaning w e a ≡ meaning w e b }
{}

/// A tree with trees in the place of names means what it means where the names stand for these trees, if it binds and
/// defines none of these names and none of the trees' free names.
pub fn trees_may_be_put_in()
    ensures { (w : Width) (S : List ℕ → Bool) (σ : Given) (e : Expr) (sc : Scope) → Within S σ → IsTrue (each (binds_apart S) e) → meaning w (put σ e) sc ≡ meaning w e (give w σ sc) }
{}

/// A tree with its bound names renamed, one to one, means the same.
pub fn bound_names_may_be_renamed()
    ensures { (w : Width) (ρ : Renaming) (e : Expr) (a b : Scope) → OneToOne ρ → Renames ρ a b → meaning w (rename ρ e) a ≡ meaning w e b }
{}
