//! A law of forms.

ghost use Rattle.cell_arena.specs.Cells.{Cells, WellBuilt};
ghost use Rattle.cell_merge.specs.Sorts.{Sort};
ghost use Rattle.form_cells.specs.FormSorts.{IsFormOf};
ghost use Rattle.form_cells.specs.FormValues.{form_value};
ghost use Rattle.form_cells.specs.declared.form.Form.{Form as AnyForm};
ghost use Rattle.std.specs.Prelude.{◌≡◌, Bool, List, true};
ghost use Rattle.tla_meaning.specs.Forms.{is_set_form};

/// A form whose members have a sort is one in the meaning: its plain cells are sets.
pub fn forms_of_sorts_are_set_forms()
    ensures { (c : Cells) (a : List Bool) (s : Sort) (f : AnyForm) → WellBuilt c → IsFormOf c.kinds s f →
        is_set_form (form_value c a f) ≡ true }
{}
