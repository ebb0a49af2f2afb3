// Laws of each run.
ghost use Rattle.transcript_fleet.specs.Laws.{SessionsBegin, SessionsEnd, SessionsGoOn, SessionsKnow};

use berth_face::Berth;

/// No-op; states the laws of a run over a fleet. It begins over any berths. It goes on by each item of its script: a
/// command, or the lanes of a burst, beside one another or in turn. Once all seats have met again, its lines are a
/// transcript. For each berth with a known base, all that a crash could leave at each moment belonged to the tables
/// then, and a leaf may begin over the berth again.
pub fn plays_go_on<B: Berth>(berths: &[B])
    ensures begin { SessionsBegin B.meaning berths.now }
    ensures on { SessionsGoOn B.meaning berths.now }
    ensures known { SessionsKnow B.meaning berths.now }
    ensures end { SessionsEnd B.meaning berths.now }
{}
