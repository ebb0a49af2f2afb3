// Laws: over which berths a leaf may begin.
ghost use Rattle.crash_moments.specs.Base.{IsReady};
ghost use Rattle.region_layout.specs.Region.{reads};
ghost use Rattle.berth_face.specs.Berth.{OpenedOn, Pair};
ghost use Rattle.crash_moments.specs.Left.{NamedStates, Left};
ghost use Rattle.crash_states.specs.Beginning.{BeginsOnLog, MayBegin};
ghost use Rattle.leaf_machine.specs.Leaving.{LeavesBegin};

use berth_face::Berth;

/// No-op; states that a leaf with a base may begin over a berth that is ready with it.
pub fn begins_where_ready<B: Berth>(berth: &B)
    ensures { (base : NamedStates) → IsReady reads (B.meaning berth.now) base → MayBegin base (B.meaning berth.now) }
{}

/// No-op; states that another leaf may begin over the berth of a leaf at rest, or of one that serves its tables or
/// shuts them. Its base has a prefix of each table's writes, and each flushed write is in every log that a crash may
/// leave.
pub fn leaves_begin<B: Berth>(berth: &B)
    ensures { LeavesBegin (B.meaning berth.now) }
{}

/// No-op; states that a leaf may begin over a berth that was opened on a region and a disk which belong to some tables,
/// as each pair that a crash may leave does. Its base is what the log has.
pub fn begins_where_opened<B: Berth>(berth: &B)
    ensures { (tables : NamedStates) (p : Pair) → Left reads tables p → OpenedOn p.region p.disk (B.meaning berth.now)
        → BeginsOnLog tables p.disk (B.meaning berth.now) }
{}
