// What is on its way from the directory to a core: a grant and a probe, in lent words.
#![tactic(auto)]

ghost use Rattle.link.specs.Laws.{GrantRead, GrantWritten, ProbeRead, ProbeWritten};

pub mod grant;
pub mod probe;

// What is read of a place of the grants, or the probes, is what is on its way to that core; and what is written there is on its way from then on.
pub fn messages_of_cores()
    ensures grants { (GrantRead) × (GrantWritten) }
    ensures probes { (ProbeRead) × (ProbeWritten) }
{}
