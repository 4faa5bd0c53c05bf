// The main properties of the definitions, over the chunks of any capture. Each function has a law as its contract, and does
// nothing.
ghost use Rattle.std.specs.Prelude.{◌≡◌, ◌≢◌, ◌<◌, ℕ, true, List, [], ◌∷◌, ◌++◌, length, All, Contains};
ghost use Rattle.user_messages.specs.declared.given.Given.TheVariants.{Whole, Repeated};
ghost use Rattle.user_messages.specs.Chunks.{same_chunk};
ghost use Rattle.user_messages.specs.Gathering.{Received, chunks_of, has_key};
ghost use Rattle.user_messages.specs.UserMessages.{IsUserMessage, message_of};
ghost use Rattle.user_messages.specs.Captures.{AreApart, HaveNumbers, IsMadeOf, NoneGivenUp, NoneTwice, last_given};

/// A chunk is taken for a repeat only if one with its association and its number arrived before. So no chunk is left out
/// that was not there already.
pub fn repeats_arrived_before()
    ensures { (cs : List Received) (c : Received) → last_given cs c ≡ Repeated → has_key cs c ≡ true }
{}

/// A chunk of an association (its verification tag is not 0) is taken for a repeat if one of the last 65,536 chunks before it
/// has its association and its number.
pub fn repeats_are_found()
    ensures { (before : List Received) (d : Received) (between : List Received) (c : Received) → length between < 65536 →
        c.chunk.flow.tag ≢ 0 → same_chunk c.chunk d.chunk ≡ true → last_given (before ++ d ∷ between) c ≡ Repeated }
{}

/// What is given as a message is the data of chunks that arrived, the last one among them, and these are a whole user
/// message.
pub fn messages_are_whole()
    ensures { (cs : List Received) (c : Received) (octets : List ℕ) → last_given cs c ≡ Whole octets → IsMadeOf cs c octets }
{}

/// Take a capture in which no two chunks have one association and one number, and none is given up. If chunks of it are a whole
/// user message, the one of them that arrives last gives the data of the message, in whatever order they arrive and whatever
/// other chunks arrive between them.
pub fn whole_messages_are_given()
    ensures { (cs : List Received) (c : Received) (run : List Received) → NoneTwice (cs ++ c ∷ []) → HaveNumbers (cs ++ c ∷ []) →
        NoneGivenUp cs → IsUserMessage (chunks_of run) → All (Contains (cs ++ c ∷ [])) run → Contains run c →
        last_given cs c ≡ Whole (message_of (chunks_of run)) }
{}

/// Take a capture in which no two chunks have one association and one number. No chunk of it is in two of the messages that
/// are given.
pub fn no_chunk_is_given_twice()
    ensures { (cs : List Received) → NoneTwice cs → AreApart cs }
{}
