//! The configurations of `examples/`, which `.ci/run` compares with these, and their canonical texts.

use super::{Row, assert_printed};

/// What `crm configure show` writes of a cluster.
const CONFIGURE_SHOW: Row = (
    "node 1: n1\n\
        node 2: n2 \\\n\
        \tattributes standby=off\n\
        primitive vip IPaddr2 \\\n\
        \tparams ip=10.0.0.5 cidr_netmask=24 \\\n\
        \top monitor interval=10s timeout=20s\n\
        primitive web systemd:nginx \\\n\
        \top start timeout=100s interval=0s\n\
        group g-web vip web\n\
        location cli-prefer-g-web g-web role=Started inf: n1\n\
        property cib-bootstrap-options: \\\n\
        \thave-watchdog=false \\\n\
        \tdc-version=\"2.1.6+20230607\" \\\n\
        \tstonith-enabled=false\n\
        rsc_defaults rsc-options: \\\n\
        \tresource-stickiness=1\n",
    r#"node 1: n1
node 2: n2 attributes standby=off
primitive vip ocf:heartbeat:IPaddr2 params ip=10.0.0.5 cidr_netmask=24 op monitor interval=10s timeout=20s
primitive web systemd:nginx op start timeout=100s interval=0s
group g-web vip web
location cli-prefer-g-web g-web role=Started INFINITY: n1
property cib-bootstrap-options: have-watchdog=false dc-version=2.1.6+20230607 stonith-enabled=false
rsc_defaults rsc-options: resource-stickiness=1
"#,
);

/// An address with a web server.
const WEB_SERVER: Row = (
    r#"# Two nodes serve a web site under one address. The address moves first, and the web server follows it.
node 1: web1 \
    attributes standby=off
node 2: web2 \
    attributes standby=off
primitive site-address IPaddr2 \
    params ip=192.0.2.80 cidr_netmask=24 nic=eth0 \
    meta migration-threshold=3 failure-timeout=10min \
    op monitor interval=10s timeout=20s \
    op start timeout=20s interval=0 \
    op stop timeout=20s interval=0
primitive site-server ocf:heartbeat:nginx description="The web site" \
    params configfile="/etc/nginx/nginx.conf" test_url="http://127.0.0.1/status" \
    op monitor interval=30s timeout=30s on-fail=restart \
    op start timeout=40s interval=0s \
    op stop timeout=60s interval=0s
primitive fence-web1 stonith:fence_ipmilan \
    params ip=198.51.100.11 username=fence password='p"a ss' pcmk_host_list=web1 \
    op monitor interval=5min
primitive fence-web2 stonith:fence_ipmilan \
    params ip=198.51.100.12 username=fence password='p"a ss' pcmk_host_list=web2 \
    op monitor interval=5min
group site site-address site-server \
    meta target-role=Started
# A fence device doesn't run on the node that it fences.
location fence-web1-elsewhere fence-web1 -inf: web1
location fence-web2-elsewhere fence-web2 -inf: web2
location site-prefers-web1 site 50: web1
property cib-bootstrap-options: \
    have-watchdog=false \
    cluster-infrastructure=corosync \
    cluster-name=web \
    stonith-enabled=true \
    no-quorum-policy=stop \
    stonith-timeout=60s
rsc_defaults rsc-options: \
    resource-stickiness=100
op_defaults op-options: \
    timeout=60s record-pending=true
"#,
    r#"node 1: web1 attributes standby=off
node 2: web2 attributes standby=off
primitive site-address ocf:heartbeat:IPaddr2 params ip=192.0.2.80 cidr_netmask=24 nic=eth0 meta migration-threshold=3 failure-timeout=10min op monitor interval=10s timeout=20s op start timeout=20s interval=0 op stop timeout=20s interval=0
primitive site-server ocf:heartbeat:nginx description="The web site" params configfile=/etc/nginx/nginx.conf test_url=http://127.0.0.1/status op monitor interval=30s timeout=30s on-fail=restart op start timeout=40s interval=0s op stop timeout=60s interval=0s
primitive fence-web1 stonith:fence_ipmilan params ip=198.51.100.11 username=fence password="p\"a ss" pcmk_host_list=web1 op monitor interval=5min
primitive fence-web2 stonith:fence_ipmilan params ip=198.51.100.12 username=fence password="p\"a ss" pcmk_host_list=web2 op monitor interval=5min
group site site-address site-server meta target-role=Started
location fence-web1-elsewhere fence-web1 -INFINITY: web1
location fence-web2-elsewhere fence-web2 -INFINITY: web2
location site-prefers-web1 site 50: web1
property cib-bootstrap-options: have-watchdog=false cluster-infrastructure=corosync cluster-name=web stonith-enabled=true no-quorum-policy=stop stonith-timeout=60s
rsc_defaults rsc-options: resource-stickiness=100
op_defaults op-options: timeout=60s record-pending=true
"#,
);

/// A database on a replicated disk.
const DRBD_POSTGRESQL: Row = (
    r#"# A database on a replicated disk: DRBD is promoted on one node, and there the file system, PostgreSQL and its address run.
node db1
node db2
primitive data-drbd ocf:linbit:drbd \
    params drbd_resource=pgdata \
    op monitor interval=29s role=Master \
    op monitor interval=31s role=Slave \
    op start timeout=240s interval=0 \
    op promote timeout=90s interval=0 \
    op demote timeout=90s interval=0 \
    op stop timeout=100s interval=0
primitive data-disk Filesystem \
    params device="/dev/drbd/by-res/pgdata/0" directory="/var/lib/pgsql" fstype=xfs options="noatime,nodiratime" \
    op monitor interval=20s timeout=40s \
    op start timeout=60s interval=0 \
    op stop timeout=60s interval=0 on-fail=fence
primitive database ocf:heartbeat:pgsql \
    params pgctl="/usr/bin/pg_ctl" psql="/usr/bin/psql" pgdata="/var/lib/pgsql/data" \
    meta resource-stickiness=200 priority=10 \
    op monitor interval=15s timeout=30s on-fail=restart \
    op start timeout=120s interval=0 \
    op stop timeout=120s interval=0
primitive database-address IPaddr2 \
    params ip=203.0.113.54 cidr_netmask=28 \
    op monitor interval=10s
ms data-copies data-drbd \
    meta promoted-max=1 promoted-node-max=1 clone-max=2 clone-node-max=1 notify=true
group postgresql data-disk database database-address
colocation postgresql-where-promoted inf: postgresql data-copies:Master
order promoted-then-postgresql Mandatory: data-copies:promote postgresql:start
location postgresql-prefers-db1 postgresql role=Started 25: db1
location not-while-serviced postgresql \
    rule -inf: defined serviced and serviced eq true
property stonith-enabled=true no-quorum-policy=freeze start-failure-is-fatal=false
rsc_defaults migration-threshold=5 failure-timeout=1h resource-stickiness=100
"#,
    r#"node db1
node db2
primitive data-drbd ocf:linbit:drbd params drbd_resource=pgdata op monitor interval=29s role=Master op monitor interval=31s role=Slave op start timeout=240s interval=0 op promote timeout=90s interval=0 op demote timeout=90s interval=0 op stop timeout=100s interval=0
primitive data-disk ocf:heartbeat:Filesystem params device=/dev/drbd/by-res/pgdata/0 directory=/var/lib/pgsql fstype=xfs options=noatime,nodiratime op monitor interval=20s timeout=40s op start timeout=60s interval=0 op stop timeout=60s interval=0 on-fail=fence
primitive database ocf:heartbeat:pgsql params pgctl=/usr/bin/pg_ctl psql=/usr/bin/psql pgdata=/var/lib/pgsql/data meta resource-stickiness=200 priority=10 op monitor interval=15s timeout=30s on-fail=restart op start timeout=120s interval=0 op stop timeout=120s interval=0
primitive database-address ocf:heartbeat:IPaddr2 params ip=203.0.113.54 cidr_netmask=28 op monitor interval=10s
ms data-copies data-drbd meta promoted-max=1 promoted-node-max=1 clone-max=2 clone-node-max=1 notify=true
group postgresql data-disk database database-address
colocation postgresql-where-promoted INFINITY: postgresql data-copies:Promoted
order promoted-then-postgresql Mandatory: data-copies:promote postgresql:start symmetrical=true
location postgresql-prefers-db1 postgresql role=Started 25: db1
location not-while-serviced postgresql rule -INFINITY: defined serviced and serviced eq true
property stonith-enabled=true no-quorum-policy=freeze start-failure-is-fatal=false
rsc_defaults migration-threshold=5 failure-timeout=1h resource-stickiness=100
"#,
);

/// An NFS server.
const NFS_SERVER: Row = (
    r#"# An NFS server with three addresses. Its exports come up before any address, and go down after all of them.
node 1: nfs1
node 2: nfs2
node 3: witness \
    attributes standby=on
primitive shared-disk Filesystem \
    params device="/dev/vg_nfs/export" directory="/srv/nfs" fstype=ext4 \
    op monitor interval=20s timeout=40s
primitive nfs-state Filesystem \
    params device="/dev/vg_nfs/state" directory="/var/lib/nfs" fstype=ext4 \
    op monitor interval=20s timeout=40s
primitive nfs-daemon nfsserver \
    params nfs_shared_infodir="/var/lib/nfs" nfs_ip=192.0.2.21 \
    op monitor interval=30s timeout=30s \
    op start timeout=45s interval=0
primitive export-home exportfs \
    params clientspec="192.0.2.0/24" directory="/srv/nfs/home" options="rw,sync,no_subtree_check" fsid=1 \
    op monitor interval=30s
primitive export-media exportfs \
    params clientspec="*" directory="/srv/nfs/media files" options="ro,all_squash" fsid=2 \
    op monitor interval=30s
primitive address-office IPaddr2 params ip=192.0.2.21 cidr_netmask=24 op monitor interval=10s
primitive address-lab IPaddr2 params ip=192.0.2.22 cidr_netmask=24 op monitor interval=10s
primitive address-backup IPaddr2 params ip=198.51.100.21 cidr_netmask=24 op monitor interval=10s
group nfs shared-disk nfs-state nfs-daemon export-home export-media
colocation office-with-nfs inf: address-office nfs
colocation lab-with-nfs inf: address-lab nfs
colocation backup-with-nfs 100: address-backup nfs
order nfs-then-office Mandatory: nfs address-office symmetrical=true
order nfs-then-lab Mandatory: nfs:start address-lab:start
order nfs-then-backup inf: nfs address-backup
order addresses-one-by-one Serialize: address-office address-lab address-backup
location nfs-not-on-witness nfs -inf: witness
location nfs-prefers-nfs1 nfs 200: nfs1
property no-quorum-policy=stop stonith-enabled=false symmetric-cluster=true
rsc_defaults resource-stickiness=200 migration-threshold=3
"#,
    r#"node 1: nfs1
node 2: nfs2
node 3: witness attributes standby=on
primitive shared-disk ocf:heartbeat:Filesystem params device=/dev/vg_nfs/export directory=/srv/nfs fstype=ext4 op monitor interval=20s timeout=40s
primitive nfs-state ocf:heartbeat:Filesystem params device=/dev/vg_nfs/state directory=/var/lib/nfs fstype=ext4 op monitor interval=20s timeout=40s
primitive nfs-daemon ocf:heartbeat:nfsserver params nfs_shared_infodir=/var/lib/nfs nfs_ip=192.0.2.21 op monitor interval=30s timeout=30s op start timeout=45s interval=0
primitive export-home ocf:heartbeat:exportfs params clientspec=192.0.2.0/24 directory=/srv/nfs/home options=rw,sync,no_subtree_check fsid=1 op monitor interval=30s
primitive export-media ocf:heartbeat:exportfs params clientspec=* directory="/srv/nfs/media files" options=ro,all_squash fsid=2 op monitor interval=30s
primitive address-office ocf:heartbeat:IPaddr2 params ip=192.0.2.21 cidr_netmask=24 op monitor interval=10s
primitive address-lab ocf:heartbeat:IPaddr2 params ip=192.0.2.22 cidr_netmask=24 op monitor interval=10s
primitive address-backup ocf:heartbeat:IPaddr2 params ip=198.51.100.21 cidr_netmask=24 op monitor interval=10s
group nfs shared-disk nfs-state nfs-daemon export-home export-media
colocation office-with-nfs INFINITY: address-office nfs
colocation lab-with-nfs INFINITY: address-lab nfs
colocation backup-with-nfs 100: address-backup nfs
order nfs-then-office Mandatory: nfs:start address-office:start symmetrical=true
order nfs-then-lab Mandatory: nfs:start address-lab:start symmetrical=true
order nfs-then-backup Mandatory: nfs:start address-backup:start symmetrical=true
order addresses-one-by-one Serialize: address-office:start address-lab:start address-backup:start symmetrical=false
location nfs-not-on-witness nfs -INFINITY: witness
location nfs-prefers-nfs1 nfs 200: nfs1
property no-quorum-policy=stop stonith-enabled=false symmetric-cluster=true
rsc_defaults resource-stickiness=200 migration-threshold=3
"#,
);

/// A file system on all nodes.
const CLUSTER_FILESYSTEM: Row = (
    r#"# A file system that all nodes mount at once: each node runs the lock manager, the volume locks and the mount, in this order.
node gfs1
node gfs2
node gfs3
primitive locking ocf:pacemaker:controld \
    op monitor interval=30s timeout=60s on-fail=fence \
    op start timeout=90s interval=0 \
    op stop timeout=100s interval=0
primitive volume-locking ocf:heartbeat:lvmlockd \
    op monitor interval=30s timeout=60s on-fail=fence
primitive shared-volume ocf:heartbeat:LVM-activate \
    params lvname=shared vgname=cluster_vg activation_mode=shared vg_access_mode=lvmlockd \
    op monitor interval=30s timeout=90s
primitive shared-mount Filesystem \
    params device="/dev/cluster_vg/shared" directory="/mnt/shared" fstype=gfs2 options=noatime \
    op monitor interval=10s on-fail=fence
group locks locking volume-locking
group storage shared-volume shared-mount
clone locks-everywhere locks meta interleave=true
clone storage-everywhere storage meta interleave=true clone-max=3
order locks-then-storage Mandatory: locks-everywhere storage-everywhere
colocation storage-with-locks inf: storage-everywhere locks-everywhere
location storage-not-without-disk storage-everywhere \
    rule $id=no-disk -inf: not_defined shared-disk or shared-disk eq no
property cib-bootstrap-options: no-quorum-policy=freeze stonith-enabled=true
rsc_defaults rsc-options: migration-threshold=1 failure-timeout=2min
"#,
    r#"node gfs1
node gfs2
node gfs3
primitive locking ocf:pacemaker:controld op monitor interval=30s timeout=60s on-fail=fence op start timeout=90s interval=0 op stop timeout=100s interval=0
primitive volume-locking ocf:heartbeat:lvmlockd op monitor interval=30s timeout=60s on-fail=fence
primitive shared-volume ocf:heartbeat:LVM-activate params lvname=shared vgname=cluster_vg activation_mode=shared vg_access_mode=lvmlockd op monitor interval=30s timeout=90s
primitive shared-mount ocf:heartbeat:Filesystem params device=/dev/cluster_vg/shared directory=/mnt/shared fstype=gfs2 options=noatime op monitor interval=10s on-fail=fence
group locks locking volume-locking
group storage shared-volume shared-mount
clone locks-everywhere locks meta interleave=true
clone storage-everywhere storage meta interleave=true clone-max=3
order locks-then-storage Mandatory: locks-everywhere:start storage-everywhere:start symmetrical=true
colocation storage-with-locks INFINITY: storage-everywhere locks-everywhere
location storage-not-without-disk storage-everywhere rule $id=no-disk -INFINITY: not_defined shared-disk or shared-disk eq no
property cib-bootstrap-options: no-quorum-policy=freeze stonith-enabled=true
rsc_defaults rsc-options: migration-threshold=1 failure-timeout=2min
"#,
);

const EXAMPLES: &[Row] = &[
    CONFIGURE_SHOW,
    WEB_SERVER,
    DRBD_POSTGRESQL,
    NFS_SERVER,
    CLUSTER_FILESYSTEM,
];

#[test]
fn each_example_is_printed(rt: HostRuntime) {
    assert_printed(&rt, rt.alloc(), EXAMPLES);
}
