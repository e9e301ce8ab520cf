ghost use Rattle.grove_proof.specs.Laws.{ForcedIsByTree, ForcedListIsByTree, LegalMeetsFive, WeakDuality};
ghost use Rattle.grove_proof.specs.Laws.{CertifiedIsLeast, OneChangeIsRefused};
ghost use Rattle.grove_proof.specs.FaultLaws.{FaultIsOne, CertifiedIsFaultless};

/// The laws that `check` rests on, proved of every tree, list, plan and flow. The function does nothing.
pub fn laws()
    ensures forced { ForcedIsByTree }
    ensures span { ForcedListIsByTree }
    ensures constraints { LegalMeetsFive }
    ensures bound { WeakDuality }
    ensures least { CertifiedIsLeast }
    ensures changed { OneChangeIsRefused }
    ensures fault { FaultIsOne }
    ensures faultless { CertifiedIsFaultless }
{}
