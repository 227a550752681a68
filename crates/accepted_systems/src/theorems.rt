// What is accepted can be checked, as the contract of a function that does nothing.
ghost use Rattle.std.specs.Prelude.{Option};
ghost use Rattle.accepted_systems.specs.Checking.{CanBeChecked};
ghost use Rattle.front_end.specs.declared.request.Accepted.{Accepted};
ghost use Rattle.front_end.specs.declared.request.Request.{Request};
ghost use Rattle.tool_outside.specs.Outside.{Folder};

/// What is accepted for a request has the request's width, from 4 to 64, and its length, at most
/// 1,000. Its system stands for its job under that width: the kernel has the outcomes of the job's
/// parts, and the paths are those of the kernel with their assignments. And the system can be
/// encoded: its trees and paths are sound; a path reads no name before it assigns it, and assigns
/// each name that it must, once; CInit and the assumption read no variable.
pub fn accepted_systems_can_be_checked()
    ensures { (held : Option Folder) (r : Request) (a : Accepted) → CanBeChecked held r a }
{}
