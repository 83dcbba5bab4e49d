//! Each form of a statement in full and in its shortest form, with what a statement may leave out written in its canonical text.

use super::{Row, assert_printed};

const NODES: &[Row] = &[
    ("node n1", "node n1\n"),
    (
        "node 1: n1 attributes standby=off a= utilization cpu=4",
        "node 1: n1 attributes standby=off a=\"\" utilization cpu=4\n",
    ),
    (
        "node n1 utilization cpu=4 memory=8g",
        "node n1 utilization cpu=4 memory=8g\n",
    ),
    (
        "node Abc-1.x_2 attributes $id=nodes rack=b standby=no",
        "node Abc-1.x_2 attributes $id=nodes rack=b standby=no\n",
    ),
    ("node node", "node node\n"),
];

#[test]
fn nodes(rt: HostRuntime) {
    assert_printed(&rt, rt.alloc(), NODES);
}

const PRIMITIVES: &[Row] = &[
    (
        "primitive p x:y description=d op monitor interval=10s params a=b meta priority=5 utilization u=1 operations $id=o op params x=1 params c=d",
        "primitive p x:y description=d params a=b c=d meta priority=5 utilization u=1 operations $id=o op monitor interval=10s op params x=1\n",
    ),
    ("primitive params op", "primitive params ocf:heartbeat:op\n"),
    ("primitive p a:b:c", "primitive p a:b:c\n"),
    (
        "primitive p a params $id=x $id=x",
        "primitive p ocf:heartbeat:a params $id=x $id=x\n",
    ),
    (
        "primitive p a op monitor interval=10 enabled=no op monitor interval=10s",
        "primitive p ocf:heartbeat:a op monitor interval=10 enabled=no op monitor interval=10s\n",
    ),
    ("primitive p Dummy", "primitive p ocf:heartbeat:Dummy\n"),
    (
        "primitive p stonith:fence_xvm params port=n1",
        "primitive p stonith:fence_xvm params port=n1\n",
    ),
    (
        "primitive p lsb:httpd op stop timeout=5 on-fail=block op start on-fail=fence op monitor on-fail=ignore",
        "primitive p lsb:httpd op stop timeout=5 on-fail=block op start on-fail=fence op monitor on-fail=ignore\n",
    ),
    (
        "primitive p Dummy meta migration-threshold=-0 failure-timeout=90sec target-role=slave is-managed=No",
        "primitive p ocf:heartbeat:Dummy meta migration-threshold=-0 failure-timeout=90sec target-role=slave is-managed=No\n",
    ),
    (
        "primitive p Dummy meta priority=+inf resource-stickiness=-INFINITY allow-migrate=true notify=x",
        "primitive p ocf:heartbeat:Dummy meta priority=+inf resource-stickiness=-INFINITY allow-migrate=true notify=x\n",
    ),
    (
        "primitive p Dummy meta multiple-active=stop_start requires=fencing critical=yes maintenance=0",
        "primitive p ocf:heartbeat:Dummy meta multiple-active=stop_start requires=fencing critical=yes maintenance=0\n",
    ),
    (
        "primitive p Dummy op migrate_to timeout=60 on-fail=whatever op reload interval=0",
        "primitive p ocf:heartbeat:Dummy op migrate_to timeout=60 on-fail=whatever op reload interval=0\n",
    ),
    (
        "primitive p Dummy op monitor interval=1500ms op monitor interval=2 role=Promoted",
        "primitive p ocf:heartbeat:Dummy op monitor interval=1500ms op monitor interval=2 role=Promoted\n",
    ),
    (
        "primitive p Dummy operations $id=p-ops timeout=9 operations x=1",
        "primitive p ocf:heartbeat:Dummy operations $id=p-ops timeout=9 x=1\n",
    ),
    (
        "primitive p Dummy params params=1 meta op=2",
        "primitive p ocf:heartbeat:Dummy params params=1 meta op=2\n",
    ),
    (
        "primitive p Dummy meta a=1 params b=2 meta c=3 params d=4",
        "primitive p ocf:heartbeat:Dummy params b=2 d=4 meta a=1 c=3\n",
    ),
    (
        "primitive p Dummy op op x=1 op meta y=2",
        "primitive p ocf:heartbeat:Dummy op op x=1 op meta y=2\n",
    ),
];

#[test]
fn primitives(rt: HostRuntime) {
    assert_printed(&rt, rt.alloc(), PRIMITIVES);
}

const GROUPS_AND_CLONES: &[Row] = &[
    ("group g", "group g\n"),
    (
        "group g a b op meta target-role=Stopped params a=1",
        "group g a b op params a=1 meta target-role=Stopped\n",
    ),
    (
        "group g a description=d params a=1",
        "group g a description=d params a=1\n",
    ),
    (
        "clone c a description= meta clone-max=2 interleave=true",
        "clone c a description=\"\" meta clone-max=2 interleave=true\n",
    ),
    ("ms m p", "ms m p\n"),
    (
        "master m p meta promotable=on promoted-max=2",
        "ms m p meta promotable=on promoted-max=2\n",
    ),
    ("group g a", "group g a\n"),
    (
        "group g a b c description=\"three of them\" meta is-managed=off",
        "group g a b c description=\"three of them\" meta is-managed=off\n",
    ),
    (
        "group g description=none params a=1 b=2",
        "group g description=none params a=1 b=2\n",
    ),
    ("clone c a", "clone c a\n"),
    (
        "clone c a params x=1 meta clone-node-max=1 globally-unique=false ordered=no",
        "clone c a params x=1 meta clone-node-max=1 globally-unique=false ordered=no\n",
    ),
    (
        "clone c a meta clone-max=0 promoted-max=3 promotable=0",
        "clone c a meta clone-max=0 promoted-max=3 promotable=0\n",
    ),
    (
        "ms m a description=x meta master-max=1 master-node-max=1",
        "ms m a description=x meta master-max=1 master-node-max=1\n",
    ),
];

#[test]
fn groups_and_clones(rt: HostRuntime) {
    assert_printed(&rt, rt.alloc(), GROUPS_AND_CLONES);
}

const LOCATIONS: &[Row] = &[
    ("location l a -5: n1", "location l a -5: n1\n"),
    (
        "location l a role=master resource-discovery=always 2000000: n1",
        "location l a role=Promoted resource-discovery=always INFINITY: n1\n",
    ),
    (
        "location l a role=Promoted rule $id=r $role=started -inf: #uname ne n1 and date in_range start=2020-01-01 end=2020-01-02T10:00:00Z rule role=Master 5: defined x",
        "location l a role=Promoted rule $id=r $role=Started -INFINITY: \"#uname\" ne n1 and date in start=2020-01-01 end=2020-01-02T10:00:00Z rule $role=Promoted 5: defined x\n",
    ),
    (
        "location l a rule 5: x number:lte 1 or y eq 2",
        "location l a rule 5: x number:lte 1 or y eq 2\n",
    ),
    ("location l a inf: n1", "location l a INFINITY: n1\n"),
    ("location l a 1000001: n1", "location l a INFINITY: n1\n"),
    ("location l a -1000000: n1", "location l a -INFINITY: n1\n"),
    ("location l a +007: n1", "location l a 7: n1\n"),
    (
        "location l a role=STARTED 0: n1",
        "location l a role=Started 0: n1\n",
    ),
    (
        "location l a resource-discovery=always -inf: n1",
        "location l a resource-discovery=always -INFINITY: n1\n",
    ),
    (
        "location l a rule 5: x eq y",
        "location l a rule 5: x eq y\n",
    ),
    (
        "location l a rule -infinity: not_defined rack",
        "location l a rule -INFINITY: not_defined rack\n",
    ),
    (
        "location l a rule role=master 5: rack string:ne b and not_defined x",
        "location l a rule $role=Promoted 5: rack string:ne b and not_defined x\n",
    ),
    (
        "location l a rule 5: x integer:gt -3",
        "location l a rule 5: x integer:gt -3\n",
    ),
    (
        "location l a rule 5: date gt \"2023-02-28 10:00:00\"",
        "location l a rule 5: date gt \"2023-02-28 10:00:00\"\n",
    ),
    (
        "location l a rule 5: date lt 2024-02-29T00:00:00+01:00 or x eq ''",
        "location l a rule 5: date lt 2024-02-29T00:00:00+01:00 or x eq \"\"\n",
    ),
    (
        "location l a resource-discovery=always rule $id=one 1: defined a rule $id=two 2: defined b",
        "location l a resource-discovery=always rule $id=one 1: defined a rule $id=two 2: defined b\n",
    ),
];

#[test]
fn locations(rt: HostRuntime) {
    assert_printed(&rt, rt.alloc(), LOCATIONS);
}

const COLOCATIONS_AND_ORDERS: &[Row] = &[
    (
        "colocation c 5: a:Master b",
        "colocation c 5: a:Promoted b\n",
    ),
    (
        "collocation c -INFINITY: a:Started b:promoted",
        "colocation c -INFINITY: a b:Promoted\n",
    ),
    (
        "order o a b",
        "order o Mandatory: a:start b:start symmetrical=true\n",
    ),
    (
        "order o 0: a:stop b",
        "order o Optional: a:stop b:stop symmetrical=true\n",
    ),
    (
        "order o 7: a b c symmetrical=no",
        "order o Mandatory: a:start b:start c:start symmetrical=false\n",
    ),
    (
        "order o optional: a:start b:stop c",
        "order o Optional: a:start b:stop c:stop symmetrical=true\n",
    ),
    (
        "order o Serialize: a a",
        "order o Serialize: a:start a:start symmetrical=false\n",
    ),
    (
        "order o a:promote b",
        "order o Mandatory: a:promote b:start symmetrical=true\n",
    ),
    (
        "order o a:demote b c",
        "order o Mandatory: a:demote b:stop c:stop symmetrical=true\n",
    ),
    (
        "ms m a\norder o m:promote x a",
        "ms m a\norder o Mandatory: m:promote x:start a:start symmetrical=true\n",
    ),
    (
        "order o x:promote a c:demote a\nclone c a meta promotable=yes",
        "order o Mandatory: x:promote a:promote c:demote a:demote symmetrical=true\nclone c a meta promotable=yes\n",
    ),
    (
        "clone c a meta promotable=no\norder o x:demote a",
        "clone c a meta promotable=no\norder o Mandatory: x:demote a:stop symmetrical=true\n",
    ),
    ("colocation c inf: a b", "colocation c INFINITY: a b\n"),
    (
        "colocation c -infinity: a b:Promoted",
        "colocation c -INFINITY: a b:Promoted\n",
    ),
    (
        "order o Mandatory: a b",
        "order o Mandatory: a:start b:start symmetrical=true\n",
    ),
    (
        "order o inf: a b symmetrical=false",
        "order o Mandatory: a:start b:start symmetrical=false\n",
    ),
    (
        "order o 1: a:stop b:demote",
        "order o Mandatory: a:stop b:demote symmetrical=true\n",
    ),
    (
        "order o SERIALIZE: a:start b:promote symmetrical=off",
        "order o Serialize: a:start b:promote symmetrical=false\n",
    ),
    (
        "order o a:start b:start c:stop d",
        "order o Mandatory: a:start b:start c:stop d:stop symmetrical=true\n",
    ),
];

#[test]
fn colocations_and_orders(rt: HostRuntime) {
    assert_printed(&rt, rt.alloc(), COLOCATIONS_AND_ORDERS);
}

const SETTINGS: &[Row] = &[
    ("property a=b:", "property a=b:\n"),
    (
        "property s: batch-limit=007 x=1",
        "property s: batch-limit=007 x=1\n",
    ),
    (
        "property a=1 $id=x\nrsc_defaults a=1\nop_defaults a=1\nproperty b=1 $id=x",
        "property a=1 $id=x\nrsc_defaults a=1\nop_defaults a=1\nproperty b=1 $id=x\n",
    ),
    ("op_defaults timeout=20", "op_defaults timeout=20\n"),
    (
        "rsc_defaults promoted-max=1 master-max=x",
        "rsc_defaults promoted-max=1 master-max=x\n",
    ),
    ("property x=y", "property x=y\n"),
    (
        "property stonith-enabled=0 no-quorum-policy=ignore start-failure-is-fatal=NO startup-fencing=n",
        "property stonith-enabled=0 no-quorum-policy=ignore start-failure-is-fatal=NO startup-fencing=n\n",
    ),
    (
        "property s: symmetric-cluster=off stop-all-resources=y maintenance-mode=1 batch-limit=1000000",
        "property s: symmetric-cluster=off stop-all-resources=y maintenance-mode=1 batch-limit=1000000\n",
    ),
    (
        "property placement-strategy=default node-health-strategy=none",
        "property placement-strategy=default node-health-strategy=none\n",
    ),
    (
        "rsc_defaults rsc-options: priority=5",
        "rsc_defaults rsc-options: priority=5\n",
    ),
    (
        "rsc_defaults $id=a $id=b resource-stickiness=inf",
        "rsc_defaults $id=a $id=b resource-stickiness=inf\n",
    ),
    (
        "op_defaults op-options: interval=x enabled=y",
        "op_defaults op-options: interval=x enabled=y\n",
    ),
];

#[test]
fn settings(rt: HostRuntime) {
    assert_printed(&rt, rt.alloc(), SETTINGS);
}

const KEPT: &[Row] = &[
    ("fencing_topology n1: a b", "fencing_topology n1: a b\n"),
    (
        "user a b\nrole r\nalert x\nacl_target t\nacl_group g",
        "user a b\nrole r\nalert x\nacl_target t\nacl_group g\n",
    ),
    ("fencing_topology", "fencing_topology\n"),
    ("acl_group g \"a b\" '#c'", "acl_group g \"a b\" \"#c\"\n"),
];

#[test]
fn statements_that_are_kept(rt: HostRuntime) {
    assert_printed(&rt, rt.alloc(), KEPT);
}
