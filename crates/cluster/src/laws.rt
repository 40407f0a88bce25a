// The theorems on clusters and kept stamps, for every policy and every history that a station can have.
// Each function has a theorem for its contract, so that the check asks for the proof.
ghost use Rattle.cluster.specs.Laws.{ClustersPart, LimitKept, TogetherStays, ComesBack, ThirdExchange};

// Each post lies in exactly one cluster.
#[tactic(auto, using(crate::proofs::Clusters::clusters_part))]
pub fn clusters_part()
    ensures { ClustersPart }
{}

#[tactic(auto, using(crate::proofs::Clusters::limit_kept))]
pub fn limit_kept()
    ensures { LimitKept }
{}

// Posts that share a cluster share one from then on.
#[tactic(auto, using(crate::proofs::Clusters::together_stays))]
pub fn together_stays()
    ensures { TogetherStays }
{}

// Nothing is lost by keeping only the entries for the covered posts.
#[tactic(auto, using(crate::proofs::Kept::comes_back))]
pub fn comes_back()
    ensures { ComesBack }
{}

// When the policy by traffic merges two posts.
#[tactic(auto, using(crate::proofs::ThirdExchange::third_exchange))]
pub fn third_exchange()
    ensures { ThirdExchange }
{}
