// What is accepted is not refused, as the contract of a function that does nothing.
ghost use Rattle.std.specs.Prelude.{◌≡◌, ◌≤◌, ℕ, List, Option};
ghost use Rattle.front_end.specs.Accepted.{IsAcceptedFor};
ghost use Rattle.front_end.specs.Refused.{IsPassing, IsRefusal};
ghost use Rattle.front_end.specs.declared.fault.FrontFault.{FrontFault};
ghost use Rattle.front_end.specs.declared.request.Accepted.{Accepted};
ghost use Rattle.front_end.specs.declared.request.Request.{Request};
ghost use Rattle.tla_meaning.specs.declared.expr.Decl.{Decl};
ghost use Rattle.tla_modules.specs.Answers.{IsTold};
ghost use Rattle.tool_outside.specs.Outside.{Folder};

/// Where the files are told, a request that is accepted is not refused but for want of memory and a read that failed, so
/// that `accept` answers Ok exactly where it is accepted; and what is accepted of it is of one job. It does nothing.
pub fn accepted_requests_are_not_refused()
    ensures refused { (held : Option Folder) (before now : ℕ) (r : Request) (a : Accepted) (files : List (List ℕ)) (names : List Decl) (f : FrontFault)
        → 4 ≤ r.width → IsTold held → IsAcceptedFor held r a → IsRefusal held before now r files names f → IsPassing f }
    ensures one_job { (held : Option Folder) (r : Request) (a b : Accepted) → IsTold held → IsAcceptedFor held r a → IsAcceptedFor held r b
        → a.job ≡ b.job }
{}
