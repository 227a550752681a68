// Laws of verdicts, each as the contract of a function that does nothing.
ghost use Rattle.std.specs.Prelude.{◌≡◌, ◌⊎◌, ◌+◌, ◌≤◌, List, Option, Some, ℕ};
ghost use Rattle.refutation_checker.specs.declared.section.Section.{Section};
ghost use Rattle.tla_meaning.specs.Numbers.{Width};
ghost use Rattle.tla_meaning.specs.Questions.{IsFirst, NoneBelow};
ghost use Rattle.tla_meaning.specs.declared.job.Job.{Job};
ghost use Rattle.tla_meaning.specs.declared.questions.Query.{Query};
ghost use Rattle.trace_text.specs.declared.verdict.Verdict.{Verdict};
ghost use Rattle.trace_text.specs.declared.verdict.Verdict.TheVariants.{Clean};
ghost use Rattle.bounded_engine.specs.Sections.{AreRefuted, asked_below};
ghost use Rattle.bounded_engine.specs.Verdicts.{IsSpentBy, IsVerdict, NoneErrsBelow, Tells};

/// The verdict is that of the first question that holds, in the order of levels and of a level's
/// questions, and that there is no error where none holds up to the longest executions; or that a
/// budget was given and spent, at no higher level.
pub fn verdicts_tell_the_first_question()
    ensures first { (w : Width) (job : Job) (longest n : ℕ) (budget : Option ℕ) (q : Query)
        (v : Verdict) → IsVerdict w job longest budget v → n ≤ longest → IsFirst w job n q →
        Tells n q v ⊎ IsSpentBy budget n v }
    ensures none { (w : Width) (job : Job) (longest : ℕ) (budget : Option ℕ) (v : Verdict) →
        IsVerdict w job longest budget v → NoneBelow w job (longest + 1) →
        (v ≡ Clean longest) ⊎ IsSpentBy budget longest v }
{}

/// The sections of the questions of the first levels tell by themselves, whatever solver made them,
/// that none of these questions holds, and so that none of these levels errs.
pub fn sections_tell_of_their_levels()
    ensures questions { (w : Width) (job : Job) (n : ℕ) (sections : List Section) →
        AreRefuted w job (asked_below n) sections → NoneBelow w job n }
    ensures errors { (w : ℕ) (job : Job) (n : ℕ) (sections : List Section) →
        AreRefuted (Some w) job (asked_below n) sections → NoneErrsBelow job n }
{}
