//! Laws of a connection. Each function does nothing: its contract is a theorem on the definitions.
ghost use Rattle.dav_wire.specs.Laws.{HeadsStandAlone, CallsAreRequests, RequestsAreDetermined, ChunksStateTheirSizes, ConnectionsNeverStall, RefusalsAreRead};

/// The bytes that are handed over as a head are, by themselves, the head that was read in the stream: nothing is smuggled
/// past the answerer's own reading.
pub fn heads_stand_alone()
    ensures { HeadsStandAlone }
{}

/// Whatever pieces the bytes came in, the requests that were handed over are the first ones that the grammar reads in them,
/// each once and in order, and no others.
#[tactic(auto, using(crate::proofs::LawAnswers::calls_are_requests, crate::proofs::LawAnswers::requests_are_determined))]
pub fn calls_are_requests()
    ensures requests { CallsAreRequests }
    ensures determined { RequestsAreDetermined }
{}

/// After `advance` a connection has something to send, or waits for input that goes on, or is closed.
#[tactic(auto, using(crate::proofs::LawAnswers::connections_never_stall))]
pub fn connections_never_stall()
    ensures { ConnectionsNeverStall }
{}

/// Each refusal, and the 500 where a response can't be sent, is read whole by the client, as a response of that status without
/// a body, which says that the connection is closed.
pub fn refusals_are_read()
    ensures { RefusalsAreRead }
{}

/// What came of a body in chunks states the size of each chunk whose line came: so one that is too long is refused at its line.
#[tactic(auto, using(crate::proofs::ChunkTexts::chunks_state_their_sizes))]
pub fn chunks_state_their_sizes()
    ensures { ChunksStateTheirSizes }
{}
