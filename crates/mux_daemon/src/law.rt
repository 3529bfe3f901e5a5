// What follows of a served port and of a served berth, session by session.
ghost use Rattle.lane_desk.specs.Desks.{TooMany};
ghost use Rattle.mux_daemon.specs.Sessions.{PortLaw};
ghost use Rattle.mux_daemon.specs.Starts.{BerthLaw};
ghost use Rattle.mux_daemon.specs.Events.{ServedLaw};
ghost use Rattle.mux_daemon.specs.Causes.{EventsLaw};

use lane_lists::{origins_law, sessions_law, sides_law, start_sessions_law};
use mux_steps::Steps;
use outside_io::{Berth, Clock, MemPort, Port};

/// The links of a served port are, in their order, those of the editors that the history has from its lane, perhaps one whose
/// editor the history doesn't have, and perhaps one that was refused. The bodies from an editor are the first frames that were read, and what was written are the frames of the bodies to it.
pub fn port_law<P: Port>()
    ensures { PortLaw P.sessions P.links P.faults }
{
    sessions_law();
}

/// Where no start is spawned twice, as is so of what `serve_core` served, the starts that were tried in a served berth's lane have
/// its first turns, in their order. Each failed; or it came up, its bodies are the first frames that were read of its program, and
/// what was written are the frames of the bodies to it. Its bodies are all frames that were read where it went by a failed read or a
/// fault in the bytes, or, of a whole session that wasn't ordered to be closed, by the end of its source. A write that failed by what
/// the lane said did so in the turn of its start, whose sink's count rose.
pub fn berth_law<B: Berth>()
    ensures { BerthLaw B.runs B.left B.faults }
{
    start_sessions_law();
}

/// Of what `serve_core` served: what each port, the own link and each berth carried, by the history; each editor of the history is
/// of a port's lane or of the own one, each start of which it has a cause was tried in a berth's lane, and its ticks are the first
/// moments that the clock gave. Where the answer is `PortsClosed` the own link joined behind all other editors, each of which
/// had gone; where it is `Stopped` it didn't join.
pub fn served_law<K: Steps, P: Port, B: Berth, C: Clock>()
    ensures { ServedLaw K.stands (TooMany K.stands K.allows K.passes) K.stops P.sessions P.links P.faults B.runs B.left B.faults C.given C.left }
{
    port_law::<P>();
    port_law::<MemPort>();
    berth_law::<B>();
    origins_law();
}

/// What each event of the history came of, of what `serve_core` served. Each editor that joined is of a link that a port gave, or of
/// the own one, but with `Stopped` of a port's. It went by a failed read only where its source's count rose in its session, by a bad
/// frame only where a fault stands in the bytes that were read, and by the end of its source, in a whole session, only where its source
/// has no bytes left or it was closed before. Each start of which there is a cause came up in a berth that gave a program for it, or
/// failed in one whose count rose. A program's whole session is over only since its source stopped, since it was ended before, or
/// since its writing part was told first that it went. With `Stopped` and `PortsClosed` each session is whole. With any answer each
/// body that was drained was written whole in the session of its editor, and an editor went by a failed write only where one failed
/// in its session, whose sink's count rose; a start went since a write failed only where the count of its program's sink rose in its
/// session. Where a start went by the end that was posted of its source, in a whole session, the history has all frames that were
/// read, unless it has before that the start was ended.
pub fn events_law<K: Steps, P: Port, B: Berth, C: Clock>()
    ensures { EventsLaw K.stands (TooMany K.stands K.allows K.passes) K.stops P.sessions P.links P.faults B.runs B.left B.faults C.given C.left }
{
    served_law::<K, P, B, C>();
    sides_law();
}
