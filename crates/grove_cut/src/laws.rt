ghost use Rattle.grove_cut.specs.CutTrees.{CutsKeepLegal, CutsKeepCost, CutsKeepLeast, CutsKeepSettled};
ghost use Rattle.grove_cut.specs.CutTrees.{CutsKeepCertificates, CutsAreTrees};

/// What holds of plans over a tree that is cut down to some of its nodes and all that is above them, said of the
/// definitions alone: a plan over the cut tree, with the origins of its nodes, is legal, least or settled over the
/// whole one exactly where it is so over the cut one, and costs the same; a flow certifies a cost over both or neither;
/// and a cut of a tree is a tree within the same limits. So a list may be planned over any cut that has its nodes.
pub fn cut_laws()
    ensures legal { CutsKeepLegal }
    ensures cost { CutsKeepCost }
    ensures least { CutsKeepLeast }
    ensures settled { CutsKeepSettled }
    ensures certified { CutsKeepCertificates }
    ensures tree { CutsAreTrees }
{}
