// Whether the nodes of trees stand in so many files.
ghost use Rattle.std.specs.Prelude.{◌≡◌, nat_lt};
ghost use Rattle.std.specs.List.{list_all};
ghost use Rattle.fault_places.specs.Places.{job_places_below, places_below};

use tla_meaning::{Decl, Expr, Job};
use tla_values::Text;

/// Whether each node of the job's trees, and each declared name, has its place in one of the first files, as many as
/// are given.
pub fn are_places_below(job: &Job, files: usize) -> bool
    ensures { result ≡ job_places_below files job.now }
{
    is_below(&job.cinit, files)
        && is_below(&job.assume, files)
        && is_below(&job.init, files)
        && is_below(&job.next, files)
        && are_invariants_below(job.invs.as_slice(), files)
        && are_names_below(job.names.as_slice(), files)
}

fn are_names_below(names: &[Decl], files: usize) -> bool
    ensures { result ≡ list_all (λ d. nat_lt d.place.file files) names.now }
{
    names.iter().all(|d| (d.place.file as usize) < files)
}

fn are_invariants_below(invs: &[(Text, Expr)], files: usize) -> bool
    ensures { result ≡ list_all (λ e. places_below files e.1) invs.now }
{
    invs.iter().all(|(_, e)| is_below(e, files))
}

#[cycle(is_below)]
fn is_below(e: &Expr, files: usize) -> bool
    ensures { result ≡ places_below files e.now }
{
    (e.place.file as usize) < files && are_below(e.args.as_slice(), files)
}

#[cycle(is_below)]
fn are_below(trees: &[Expr], files: usize) -> bool
    ensures { result ≡ list_all (places_below files) trees.now }
{
    for e in trees {
        if !is_below(e, files) {
            return false;
        }
    }
    true
}
