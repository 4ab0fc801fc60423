//! What follows from the contract of `ask` alone, as the contracts of functions that do nothing.

ghost use Rattle.vp_client.specs.Claims.{AnswersAreGiven, AnswersAreShaped};
ghost use Rattle.vp_client.specs.Conversations.{ConversationsJoin, ConversationsHandOver};

/// If no call of the link fails, `ask` gives the answer that is among the datagrams that the link has left, or runs out of memory.
pub fn answers_are_given()
    ensures { AnswersAreGiven }
{}

/// An answer that is found in a datagram is one that a site may give: its names and values are in their grammar.
pub fn answers_are_shaped()
    ensures { AnswersAreShaped }
{}

/// Calls that are asked one after the other hand over their frames and nothing else; and more may be asked after them.
pub fn conversations_hand_over()
    ensures join { ConversationsJoin }
    ensures frames { ConversationsHandOver }
{}
