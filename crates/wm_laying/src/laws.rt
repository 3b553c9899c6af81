// Laws on the instances that calls lead to.
ghost use Rattle.wm_laying.specs.Laws.{InstancesStay, SizesTold, OffsetsTold, InstancesBegin, InstancesOf, RootsStay, RootsBegin};

/// It does nothing: its contract is a list of laws on the instances that calls lead to.
pub fn laying_laws()
    ensures stay { InstancesStay }
    ensures sizes { SizesTold }
    ensures offsets { OffsetsTold }
    ensures begin { InstancesBegin }
    ensures functions { InstancesOf }
    ensures roots { RootsStay }
    ensures root { RootsBegin }
{}
