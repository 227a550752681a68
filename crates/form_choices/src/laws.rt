//! A law of forms.

ghost use Rattle.form_choices.specs.FiniteForms.{is_finite};
ghost use Rattle.kernel_trees.specs.Sound.{is_finite as is_finite_tree};
ghost use Rattle.kernel_trees.specs.Trees.{ker_form};
ghost use Rattle.kernel_trees.specs.declared.kernel.Ker.{Ker};
ghost use Rattle.std.specs.Prelude.{◌≡◌, true, IsTrue};
ghost use Rattle.tla_meaning.specs.Forms.{Made};
ghost use Rattle.tla_meaning.specs.Numbers.{Width};
ghost use Rattle.tla_meaning.specs.Scopes.{Scope};
ghost use Rattle.tla_meaning.specs.declared.forms.SetForm.{SetForm};
ghost use Rattle.tla_meaning.specs.declared.job.State.{State};

/// A tree in which no infinite set stands, as assignments take it, has a form in which none stands.
pub fn finite_trees_have_finite_forms()
    ensures { (w : Width) (k : Ker) (sc : Scope) (s t : State) (f : SetForm) → IsTrue (is_finite_tree k) →
        ker_form w k sc s t ≡ Made f → is_finite f ≡ true }
{}
