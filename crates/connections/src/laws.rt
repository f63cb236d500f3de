//! What follows from the definitions for a whole connection, on functions that do nothing.
ghost use Rattle.std.specs.Prelude.{◌≡◌, ◌≢◌, Bool, List, None, false, slice_get, true};
ghost use Rattle.sp_base.specs.declared.answer.Answer as model;
ghost use Rattle.any_config.specs.declared.farm.Farm.{Farm};
ghost use Rattle.cover_rules.specs.declared.page.PageKey.{PageKey};
ghost use Rattle.cache_log.specs.Entries.{LogEntry};
ghost use Rattle.http_front.specs.Answers.{answer_bytes, fixed_507};
ghost use Rattle.connections.specs.Slots.{Slot, fixed_answer, IsFixedWhole, IsHitIfPermitted};
ghost use Rattle.connections.specs.Connections.{Close, Send, due};
ghost use Rattle.connections.specs.Histories.{AnswersRun, AreOfTurns, sendings, AreTreatedIfAtRestUnlessCut, WhateverHappens};

/// Whatever happens to a connection: once nothing more can be sent, what was sent on it answers its slots in their order, each once,
/// up to the first that waits, and nothing after one that closes the connection.
pub fn answers_in_order()
    ensures { WhateverHappens (λ c moves. ((slot : Slot) → due c ≢ Send slot) → AnswersRun c.slots (sendings moves)) }
{}

/// Whatever happens to a connection, its slots are those of its turns, in their order, and after all turns, where the stream has a fault,
/// that of this fault, with its status; and none comes after one that closes the connection.
pub fn slots_of_turns()
    ensures { WhateverHappens (λ c moves. AreOfTurns c.turns c.ends c.slots) }
{}

/// Whatever happens to a connection, it isn't left open: once it closes and all its slots are sent, its end is due.
pub fn a_closing_connection_ends()
    ensures { WhateverHappens (λ c moves. c.closing ≡ true → slice_get c.slots c.sent ≡ None → due c ≡ Close) }
{}

/// Whatever happens to a connection: where nothing is due but its end, each turn that its stream spells has its slot, and so has the
/// fault that ends them, unless a slot closes the connection, or memory ran out as something was sent.
pub fn each_turn_is_treated()
    ensures { WhateverHappens AreTreatedIfAtRestUnlessCut }
{}

/// The fixed answer, sent whole where the connection closes after it, is the fixed 507 (`bytes`); no other answer is, nor is it in another
/// way (`only`).
pub fn the_fixed_answer_is_its_bytes()
    ensures bytes { answer_bytes false true fixed_answer ≡ fixed_507 }
    ensures only { (head_only closes : Bool) (answer : model.Answer) → answer_bytes head_only closes answer ≡ fixed_507 → IsFixedWhole head_only closes answer }
{}

/// Of a legal log, a hit may be answered with each answer that the log permits, since what was kept or unkept was storable.
pub fn permitted_hits_of_a_legal_log_are_hits()
    ensures { (farm : Farm) (log : List LogEntry) (key : PageKey) (answer : model.Answer) → IsHitIfPermitted farm log key answer }
{}
