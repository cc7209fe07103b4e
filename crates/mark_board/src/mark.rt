use case_core::Reason;

/// How a leaf or an inner node stands by its own finding.
#[derive(Clone, Copy, Debug, PartialEq, Eq)]
pub enum Mark {
    /// It has no finding.
    Open,
    /// Its proof refutes it.
    Refuted,
    /// Its proof is rejected.
    Rejected {
        /// The number of the step, counted from 1, that isn't good or isn't there.
        step: u64,
        /// What is wrong with it.
        reason: Reason,
    },
}
