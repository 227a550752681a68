// A verdict with what shows it.
use refutation_checker::Certificate;
use trace_text::Verdict;

/// What a check finds, and its certificate: a section for each question that was refuted, in the
/// order in which they were asked, and an open one where the budget of conflicts was spent.
#[derive(Drop)]
pub struct Run {
    pub verdict: Verdict,
    pub certificate: Certificate,
}
