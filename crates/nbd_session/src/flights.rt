//! Laws of sessions with several requests in flight.
ghost use Rattle.nbd_session.specs.Flights.{FlightsAreSessions, FlightsReadAsSessions};
ghost use Rattle.nbd_session.specs.Flights.{OneLaneIsInOrder, SessionsAreFlights};

/// A law: with one request in flight `serve_session` and `serve_lanes` say the same of a session, of
/// its handshake, its turns and its bytes. What `serve_session` says gives what `serve_lanes` says of
/// one lane (`flights`), and the converse holds (`alone`). But `serve_session` never ends with
/// `Memory` behind the negotiation, where `serve_lanes` may want memory for its lane. The replies of
/// one lane stand in the order of its requests (`ordered`).
pub fn sessions_are_flights()
    ensures flights { SessionsAreFlights }
    ensures alone { FlightsAreSessions }
    ensures ordered { OneLaneIsInOrder }
{}

/// A law: what the lanes of a session were asked, and how it ended, is what a session with one request
/// in flight reads in the same bytes. Neither a fault nor want of memory nor a spent port ended it. So
/// `reading_is_unique` holds of it too, and of two sessions with different numbers of lanes.
pub fn flights_read_as_sessions()
    ensures { FlightsReadAsSessions }
{}
