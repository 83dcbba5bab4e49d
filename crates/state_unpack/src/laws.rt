ghost use Rattle.std.specs.Prelude.{◌≡◌, true};
ghost use Rattle.cluster_types.specs.declared.cluster.Cluster.{Cluster as ClusterOf};
ghost use Rattle.cluster_types.specs.Valid.{IsValid};
ghost use Rattle.state_unpack.specs.Knowledge.{has_few_monitors};

/// A valid cluster is one that `unpack` takes: each leaf has at most eight recurring monitors.
pub fn valid_clusters_have_few_monitors()
    ensures { (c : ClusterOf) → IsValid c → has_few_monitors c ≡ true }
{}
