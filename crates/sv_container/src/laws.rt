//! What holds of each answer.

ghost use Rattle.sv_container.specs.Following.{answers_follow};
ghost use Rattle.sv_container.specs.Once.{AnswersAgain, IsAnsweredInOrder, IsInOrder, IsJoined, LeavesWhatCounts};

/// Each answer closes its connection exactly where its request asks for that, and leaves its body out exactly for HEAD.
pub fn answers_follow_their_requests()
    ensures { answers_follow }
{}

/// In a context that remembers answers: a request that has a key and was served, and is asked again before so many others with keys
/// came as are remembered, changes nothing but when its session was last named, is told to no listener, and is answered as it was.
/// What a list of requests leaves is what those of them leave that were served, each once. And so it is with what the container
/// serves, where a request names the session by its secret while that has not expired; and what any run of the container serves, that
/// of all nodes of a cluster among them: what it leaves of a session is what the requests for it leave, in its order, and each is
/// answered so.
pub fn each_takes_effect_once()
    ensures again { AnswersAgain }
    ensures in_all { LeavesWhatCounts }
    ensures joined { IsJoined }
    ensures in_order { IsInOrder }
    ensures answered { IsAnsweredInOrder }
{}
